//! The grammars of monitor and client files, and their parsers.
//!
//! From the tokens of a file [`parse_monitor`] reads the tree that the grammar of monitor files
//! derives, and [`parse_clients`] the one of client files. Both answer exactly what the definitions
//! say: `specs/Grammar` and `specs/ClientGrammar` (which words are a tree's, a rule for each
//! production), and `specs/Fault` (where a text stops to be one). The laws of these definitions are
//! functions of `laws`. Tokens, trees and the printer stand in crates of their own, which this one
//! hands on.
#![tactic(auto)]

mod clients_parser;
mod declaration_parser;
mod expression_parser;
mod item_parser;
mod laws;
mod monitor_parser;
mod statement_parser;

pub use clients_parser::parse_clients;
pub use lang_printer::{print_clients, print_monitor};
pub use lang_tokens::{
    Refusal, SourceError, SourceFault, Token, TokenKind, each_is_token, is_identifier,
    one_spelling, tokens,
};
pub use lang_tree::{
    Addend, Arg, BlockTree, ClientTree, ClientsTree, Decl, Expr, Factor, InputTree, Item,
    LimitSign, LimitTree, Lit, MethodTree, MonitorTree, Op, PlacedName, StmtTree,
};
pub use laws::{derives_one_tree, names_are_identifiers, printed_tree_derives};
pub use monitor_parser::parse_monitor;
