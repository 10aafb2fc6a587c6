//! A checked monitor.

ghost use Rattle.std.specs.Prelude.{◌≡◌, length};
ghost use Rattle.lang_monitor.specs.Starts.{IsStart, started};

use super::start::Origin;
use base_list::Seq;
use lang_base::{Kind, Name, Value};
use logic_linear::{Formula, Lin, Put};
use std::marker::Model;

/// A field, with its value at the start where nothing is chosen, and whence it has that. A
/// parameter is a field to which no body assigns.
#[derive(Debug, Drop)]
pub struct Field {
    pub name: Name,
    pub kind: Kind,
    pub start: Value,
    pub origin: Origin,
}

/// A method: the kinds of its inputs, the values of its locals at the start of a call, and its
/// blocks, `count` of them from number `first` on. A call of one that asserts never waits: where
/// the guard of its only block is false it is refused.
#[derive(Debug, Drop)]
pub struct Method {
    pub name: Name,
    pub inputs: Seq<Kind>,
    pub locals: Seq<Value>,
    pub asserts: bool,
    pub first: u32,
    pub count: u32,
}

/// A statement of a body. In its forms and formulas field `k` has place `k`, input `k` place `16 +
/// k`, and local `k` place `22 + k`; an assignment is to the place of a field or of a local.
#[derive(Debug, Drop)]
pub enum Stmt {
    Put(Put),
    If {
        when: Formula,
        then: Seq<Stmt>,
        other: Seq<Stmt>,
    },
}

/// What a block answers.
#[derive(Debug, Drop)]
pub enum Ret {
    Nothing,
    Int(Lin),
    Bool(Formula),
}

/// A block of a method: it waits until the guard holds, runs the body and answers the result. Its
/// method has a number, from 0, and its condition one, from 1, or 0 where its method asserts: there
/// nobody waits for it, and no condition has this number.
#[derive(Debug, Drop)]
pub struct Block {
    pub method: u32,
    pub guard: Formula,
    pub body: Seq<Stmt>,
    pub result: Ret,
    pub condition: u32,
}

/// A condition: the guard that its blocks share, whether it reads inputs or locals, and the text of
/// the guard as the first of its blocks has it.
#[derive(Debug, Drop)]
pub struct Condition {
    pub guard: Formula,
    pub reads_inputs: bool,
    pub shown: Seq<u8>,
}

/// A monitor: at most 16 fields and 16 methods of at most 6 inputs and 4 locals, with distinct
/// names, each method of one to four blocks, in whose forms and formulas each place is a field's,
/// an input's or a local's of the right kind, with one condition for each guard
/// that is waited for (`specs/MonitorParts`, `IsMonitor`). The checker makes it from a tree, and
/// each call hands on the rule.
#[derive(Debug, Drop)]
pub struct Monitor {
    name: Name,
    fields: Seq<Field>,
    methods: Seq<Method>,
    blocks: Seq<Block>,
    conditions: Seq<Condition>,
}

impl Model for Monitor {
    ghost use Rattle.lang_monitor.specs.MonitorParts.{MonitorParts, IsMonitor, parts};
    ghost use Rattle.std.specs.Coded.{codes};
    ghost use Rattle.logic_linear.specs.contracts.formula.Formula as formula;
    ghost use Rattle.lang_monitor.specs.contracts.monitor.Stmt as stmt;

    ghost Value = { MonitorParts };

    ghost coded = { Prim.hlevel (codes, formula.the_row.coded, stmt.the_row.coded) };

    ghost view = { λ m. parts m.name m.fields m.methods m.blocks m.conditions };

    ghost invariant = { λ m. IsMonitor (parts m.name m.fields m.methods m.blocks m.conditions) };
}

impl Monitor {
    ghost use Rattle.lang_monitor.specs.MonitorParts.{IsMonitor, opened_with, parts};

    /// The monitor of these parts. It takes no memory.
    pub fn of(
        name: Name,
        fields: Vec<Field>,
        methods: Vec<Method>,
        blocks: Vec<Block>,
        conditions: Vec<Condition>,
    ) -> Monitor
        requires { IsMonitor (parts name fields.items methods.items blocks.items conditions.items) }
        ensures name { result.name ≡ name }
        ensures fields { result.fields ≡ fields.items }
        ensures methods { result.methods ≡ methods.items }
        ensures blocks { result.blocks ≡ blocks.items }
        ensures conditions { result.conditions ≡ conditions.items }
    {
        Monitor {
            name,
            fields: Seq::of(fields),
            methods: Seq::of(methods),
            blocks: Seq::of(blocks),
            conditions: Seq::of(conditions),
        }
    }

    /// Its name.
    pub fn name(&self) -> &Name
        ensures name { result.now ≡ self.now.name }
        ensures rule { IsMonitor self.now }
    {
        &self.name
    }

    /// Its fields, in file order.
    pub fn fields(&self) -> &[Field]
        ensures fields { result.now ≡ self.now.fields }
        ensures rule { IsMonitor self.now }
    {
        self.fields.items()
    }

    /// Its methods, in file order.
    pub fn methods(&self) -> &[Method]
        ensures methods { result.now ≡ self.now.methods }
        ensures rule { IsMonitor self.now }
    {
        self.methods.items()
    }

    /// Its blocks, in file order.
    pub fn blocks(&self) -> &[Block]
        ensures blocks { result.now ≡ self.now.blocks }
        ensures rule { IsMonitor self.now }
    {
        self.blocks.items()
    }

    /// Its conditions, in the order of their first blocks.
    pub fn conditions(&self) -> &[Condition]
        ensures conditions { result.now ≡ self.now.conditions }
        ensures rule { IsMonitor self.now }
    {
        self.conditions.items()
    }

    /// The monitor as it is opened with these values, one for each field. It takes no memory.
    pub fn opened(self, start: &[Value]) -> Monitor
        requires { IsStart self.fields start.now }
        ensures { result ≡ opened_with self start.now }
    {
        let Monitor {
            name,
            fields,
            methods,
            blocks,
            conditions,
        } = self;
        let mut fields = fields.into_items();
        begin_with(&mut fields, start);
        Monitor {
            name,
            fields: Seq::of(fields),
            methods,
            blocks,
            conditions,
        }
    }
}

/// Lets each field start with the value of its number.
fn begin_with(fields: &mut [Field], start: &[Value])
    requires { length fields.old ≡ length start.now }
    ensures { fields.new ≡ started fields.old start.now }
{
    for i in 0..fields.len() {
        fields[i].start = start[i];
    }
}
