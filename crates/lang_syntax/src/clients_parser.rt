//! The parser of client files: one function for each production.

ghost use Rattle.std.specs.Prelude.{◌≡◌, ℕ, ◌≤◌, List, IfOk, IfErr, length};
ghost use Rattle.lang_base.specs.Limits.{FILE_BYTES};
ghost use Rattle.lang_tokens.specs.Spelling.{Spells};
ghost use Rattle.lang_tokens.specs.Words.{words};
ghost use Rattle.lang_syntax.specs.ClientGrammar.{IsClientFile, DerivesClients};
ghost use Rattle.lang_syntax.specs.Fault.{AnswersEach, IsFault};
ghost use Rattle.lang_cursor.specs.Takes.{Takes};
ghost use Rattle.lang_cursor.specs.Reading.{Gives, AreTokens};
ghost use Rattle.lang_syntax.specs.inner.Reading.{client_at, clients_at};
ghost use Rattle.lang_syntax.specs.inner.Reading.{client_file};

use super::item_parser::item_block;
use base_list::Seq;
use lang_base::SourceError;
use lang_base::limits::LEVELS;
use lang_cursor::{Cursor, Stop, fault_of, many};
use lang_tokens::{Token, TokenKind};
use lang_tree::{ClientTree, ClientsTree, PlacedName};
use std::alloc::Global;

/// client = "client" ID "{" item* "}"
#[tactic(auto, unfolding(crate::specs::inner::Reading::client_at))]
fn client(alloc: Global, input: &mut Cursor<'_>) -> Result<ClientTree, Stop>
    ensures { Takes result input.new (client_at input.old) }
{
    input.mark(TokenKind::KeyClient)?;
    let PlacedName { at, name } = input.ident(alloc)?;
    let items = item_block(alloc, LEVELS, input)?;
    Ok(ClientTree { at, name, items })
}

/// client*
fn clients(alloc: Global, input: &mut Cursor<'_>) -> Result<Seq<ClientTree>, Stop>
    ensures { Takes result input.new (clients_at input.old) }
{
    many(
        alloc,
        input,
        |input| input.begins(TokenKind::KeyClient),
        |input| client(alloc, input),
    )
}

#[tactic(auto, unfolding(crate::specs::inner::Reading::client_file))]
fn whole(alloc: Global, bytes: &[u8], tokens: &[Token]) -> Result<ClientsTree, Stop>
    requires { AreTokens bytes.now tokens.now }
    ensures { Gives result (client_file (words bytes.now tokens.now)) }
{
    let mut input = Cursor::new(bytes, tokens);
    let clients = clients(alloc, &mut input)?;
    if !input.is_empty() {
        return Err(input.stop());
    }
    Ok(ClientsTree { clients })
}

/// The tree of a client file, from its bytes and the tokens that spell them.
///
/// The brace of a `repeat` opens a level, and no more than 64 may be open; the recursion is bounded
/// by them.
///
/// # Errors
///
/// Where the grammar derives no tree a fault by `Refusal::Syntax`, at the first token that doesn't
/// fit, or at the file's end; or out of memory.
pub fn parse_clients(
    alloc: Global,
    bytes: &[u8],
    tokens: &[Token],
) -> Result<ClientsTree, SourceError>
    requires small { length bytes.now ≤ FILE_BYTES }
    requires spelled { Spells bytes.now tokens.now }
    // The tree is the one that the grammar derives.
    ensures derived { IfOk result (λ tree. DerivesClients bytes.now tokens.now tree) }
    // Where the grammar derives a tree, it is answered, unless memory runs out.
    ensures complete { AnswersEach result (DerivesClients bytes.now tokens.now) }
    // A fault stands at the first token that doesn't fit, or at the end where more is wanted.
    ensures place { IfErr result (IsFault IsClientFile bytes.now tokens.now) }
{
    match whole(alloc, bytes, tokens) {
        Ok(tree) => Ok(tree),
        Err(stop) => Err(fault_of(bytes, tokens, stop)),
    }
}
