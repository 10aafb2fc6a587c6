//! The trees of monitor and client files. Each `at` is an offset in bytes.

use base_list::{Boxed, Seq};
use lang_base::{Kind, Name};

/// A written number with its sign. `at` is the offset of the digits.
#[derive(Clone, Copy, Debug)]
pub struct Lit {
    pub at: u32,
    pub minus: bool,
    pub digits: u128,
}

/// A monitor file.
#[derive(Debug, Drop)]
pub struct MonitorTree {
    pub name: Name,
    pub decls: Seq<Decl>,
    pub methods: Seq<MethodTree>,
}

/// A declaration. `at` is the offset of its name. A parameter is a number that is chosen when a
/// monitor is opened, one that meets its limit, and `value` where nothing is said; an int may start
/// as a constant or a parameter of a name (`Copied`).
#[derive(Debug, Drop)]
pub enum Decl {
    Const {
        at: u32,
        name: Name,
        value: Lit,
    },
    Param {
        at: u32,
        name: Name,
        value: Lit,
        limit: LimitTree,
    },
    Int {
        at: u32,
        name: Name,
        value: Lit,
    },
    Copied {
        at: u32,
        name: Name,
        source: PlacedName,
    },
    Flag {
        at: u32,
        name: Name,
        value: bool,
    },
}

/// A name that is used. `at` is its offset.
#[derive(Debug, Drop)]
pub struct PlacedName {
    pub at: u32,
    pub name: Name,
}

/// The condition of a parameter: how its number compares with a bound.
#[derive(Debug, Drop)]
pub struct LimitTree {
    pub subject: PlacedName,
    pub sign: LimitSign,
    pub bound: Lit,
}

/// How a parameter may compare with its bound: as by any comparison but `!=`.
#[derive(Clone, Copy, Debug, PartialEq, Eq)]
pub enum LimitSign {
    Equal,
    Less,
    AtMost,
    More,
    AtLeast,
}

/// A parameter of a method. `at` is the offset of its name.
#[derive(Debug, Drop)]
pub struct InputTree {
    pub at: u32,
    pub kind: Kind,
    pub name: Name,
}

/// A method: its locals, each an `Int` or a `Flag`, and its blocks, of which there is one at least.
/// One that asserts has just one, whose guard is no reason to wait: where it is false the call is
/// refused. `at` is the offset of its name.
#[derive(Debug, Drop)]
pub struct MethodTree {
    pub at: u32,
    pub name: Name,
    pub inputs: Seq<InputTree>,
    pub locals: Seq<Decl>,
    pub asserts: bool,
    pub blocks: Seq<BlockTree>,
}

/// A block of a method. `at` is the offset of its `waituntil`, or of its `asserts`.
#[derive(Debug, Drop)]
pub struct BlockTree {
    pub at: u32,
    pub guard: Expr,
    pub body: Seq<StmtTree>,
}

/// A statement. `at` is the offset of its first token.
#[derive(Debug, Drop)]
pub enum StmtTree {
    Set {
        at: u32,
        name: Name,
        value: Expr,
    },
    If {
        at: u32,
        when: Expr,
        then: Seq<StmtTree>,
        other: Seq<StmtTree>,
    },
    Return {
        at: u32,
        value: Expr,
    },
}

/// An expression. `at` is the offset of the token itself.
#[derive(Debug, Drop)]
#[cycle(expr)]
pub enum Expr {
    Number {
        at: u32,
        value: u128,
    },
    Truth {
        at: u32,
        value: bool,
    },
    Named {
        at: u32,
        name: Name,
    },
    Minus {
        at: u32,
        of: Boxed<Expr>,
    },
    Not {
        at: u32,
        of: Boxed<Expr>,
    },
    Product {
        first: Boxed<Expr>,
        rest: Seq<Factor>,
    },
    Sum {
        first: Boxed<Expr>,
        rest: Seq<Addend>,
    },
    Compare {
        op: Op,
        left: Boxed<Expr>,
        right: Boxed<Expr>,
    },
    Both {
        parts: Seq<Expr>,
    },
    Either {
        parts: Seq<Expr>,
    },
}

/// A factor after the first, with the offset of the `*` before it.
#[derive(Debug, Drop)]
#[cycle(expr)]
pub struct Factor {
    pub at: u32,
    pub of: Expr,
}

/// A part of a sum after the first: added, or subtracted where `minus`.
#[derive(Debug, Drop)]
#[cycle(expr)]
pub struct Addend {
    pub minus: bool,
    pub of: Expr,
}

/// A comparison.
#[derive(Clone, Copy, Debug, PartialEq, Eq)]
pub enum Op {
    Equal,
    Differs,
    Less,
    AtMost,
    More,
    AtLeast,
}

/// A client file.
#[derive(Debug, Drop)]
pub struct ClientsTree {
    pub clients: Seq<ClientTree>,
}

/// A client. `at` is the offset of its name.
#[derive(Debug, Drop)]
pub struct ClientTree {
    pub at: u32,
    pub name: Name,
    pub items: Seq<Item>,
}

/// What a client does. `at` is the offset of its first token: of a call that tries the one of
/// `try`, and of any other call that of the name, which is `name_at`.
#[derive(Debug, Drop)]
pub enum Item {
    Call {
        at: u32,
        tries: bool,
        name_at: u32,
        name: Name,
        args: Seq<Arg>,
    },
    Repeat {
        at: u32,
        times: u128,
        items: Seq<Item>,
    },
}

/// An argument of a call. `at` is the offset of its first token: the minus sign's, or the number's
/// where it has none.
#[derive(Debug, Drop)]
pub enum Arg {
    Int { at: u32, value: Lit },
    Bool { at: u32, value: bool },
}
