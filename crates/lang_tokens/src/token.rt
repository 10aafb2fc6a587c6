//! Tokens, and which bytes are a keyword's and a sign's. Definitions give the tables the same names
//! and rows (`specs/Spelling`).

/// What a token is.
#[derive(Clone, Copy, Debug, PartialEq, Eq)]
pub enum TokenKind {
    /// An identifier that is no keyword.
    Ident,
    /// A written number: decimal digits.
    Number,
    KeyMonitor,
    KeyConst,
    KeyInt,
    KeyBool,
    KeyTrue,
    KeyFalse,
    KeyMethod,
    KeyWaituntil,
    KeyIf,
    KeyElse,
    KeyReturn,
    KeyClient,
    KeyRepeat,
    KeyTry,
    KeyLocal,
    OpenBrace,
    CloseBrace,
    OpenParen,
    CloseParen,
    Semicolon,
    Comma,
    Assign,
    Equal,
    Differs,
    Less,
    AtMost,
    More,
    AtLeast,
    And,
    Or,
    Not,
    Plus,
    Minus,
    Star,
}

/// The kinds of the keywords, in the order of [`KEYWORDS`](lang_base::KEYWORDS).
pub(crate) const KEYWORD_KINDS: [TokenKind; 15] = [
    TokenKind::KeyMonitor,
    TokenKind::KeyConst,
    TokenKind::KeyInt,
    TokenKind::KeyBool,
    TokenKind::KeyTrue,
    TokenKind::KeyFalse,
    TokenKind::KeyMethod,
    TokenKind::KeyWaituntil,
    TokenKind::KeyIf,
    TokenKind::KeyElse,
    TokenKind::KeyReturn,
    TokenKind::KeyClient,
    TokenKind::KeyRepeat,
    TokenKind::KeyTry,
    TokenKind::KeyLocal,
];

/// The signs with their kinds, longer ones first: so the first that fits is the longest.
pub(crate) const SIGNS: [(&[u8], TokenKind); 19] = [
    (b"==", TokenKind::Equal),
    (b"!=", TokenKind::Differs),
    (b"<=", TokenKind::AtMost),
    (b">=", TokenKind::AtLeast),
    (b"&&", TokenKind::And),
    (b"||", TokenKind::Or),
    (b"{", TokenKind::OpenBrace),
    (b"}", TokenKind::CloseBrace),
    (b"(", TokenKind::OpenParen),
    (b")", TokenKind::CloseParen),
    (b";", TokenKind::Semicolon),
    (b",", TokenKind::Comma),
    (b"=", TokenKind::Assign),
    (b"<", TokenKind::Less),
    (b">", TokenKind::More),
    (b"!", TokenKind::Not),
    (b"+", TokenKind::Plus),
    (b"-", TokenKind::Minus),
    (b"*", TokenKind::Star),
];

/// What a token is, and where it stands: its first byte's offset and its length in bytes.
#[derive(Clone, Copy, Debug)]
pub struct Token {
    pub kind: TokenKind,
    pub at: u32,
    pub len: u32,
}
