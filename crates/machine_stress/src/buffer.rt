//! The buffer, as it is checked from its text.

ghost use Rattle.std.specs.Prelude.{◌≡◌, ◌≢◌, ◌^◌, ◌<◌, ◌≤◌, ◌∷◌, [], IfOk, codes, neg_ℤ, pos};
ghost use Rattle.std.specs.Prelude.{true};
ghost use Rattle.lang_base.specs.Numbers.{is_within};
ghost use Rattle.machine_stress.specs.LargeInput.{buffer_of, count_and};
ghost use Rattle.machine_stress.specs.LargeInput.{count_field, counting_block};
ghost use Rattle.machine_stress.specs.LargeInput.{has_room, has_some, plain_method, room_shown};
ghost use Rattle.machine_stress.specs.LargeInput.{shown_condition, some_shown};
ghost use Rattle.machine_stress.specs.LargeInput.{MOST_ROOM};

use base_list::Seq;
use lang_base::{Kind, Name, Value};
use lang_monitor::{Block, Condition, Field, Method, Monitor, Origin, Ret, Stmt};
use logic_linear::{Formula, Lin, Put, Term};
use std::alloc::{AllocError, Global};

/// The number of the method `put`.
pub(crate) const PUT_METHOD: u32 = 0;

/// The number of the method `get`.
pub(crate) const GET_METHOD: u32 = 1;

/// The number of the field `count`, which is its place too.
const COUNT: u32 = 0;

/// The buffer with this room. It fails only for want of memory.
pub(crate) fn buffer(alloc: Global, capacity: u64) -> Result<Monitor, AllocError>
    requires { capacity ≤ MOST_ROOM }
    ensures { IfOk result (λ monitor. monitor ≡ buffer_of capacity) }
{
    let name = name_of(alloc, b"Buffer")?;
    let fields = fields(alloc)?;
    let methods = methods(alloc)?;
    let blocks = blocks(alloc, capacity)?;
    let conditions = conditions(alloc, capacity)?;
    Ok(Monitor::of(name, fields, methods, blocks, conditions))
}

fn name_of(alloc: Global, bytes: &[u8]) -> Result<Name, AllocError>
    ensures { IfOk result (λ name. name ≡ bytes.now) }
{
    Ok(Name::of(Vec::from_slice(alloc, bytes)?))
}

fn fields(alloc: Global) -> Result<Vec<Field>, AllocError>
    ensures { IfOk result (λ fields. fields.items ≡ count_field ∷ []) }
{
    let count = Field {
        name: name_of(alloc, b"count")?,
        kind: Kind::Int,
        start: Value::Int(0),
        origin: Origin::Own,
    };
    Ok(vec![in alloc; count]?)
}

fn methods(alloc: Global) -> Result<Vec<Method>, AllocError>
    ensures { IfOk result (λ methods. methods.items
        ≡ plain_method (codes "put") 0 ∷ plain_method (codes "get") 1 ∷ []) }
{
    let put = plain_method(alloc, b"put", PUT_METHOD)?;
    let get = plain_method(alloc, b"get", GET_METHOD)?;
    Ok(vec![in alloc; put, get]?)
}

/// A method of no inputs and no locals.
fn plain_method(alloc: Global, name: &[u8], number: u32) -> Result<Method, AllocError>
    ensures { IfOk result (λ method. method ≡ plain_method name.now number) }
{
    Ok(Method {
        name: name_of(alloc, name)?,
        inputs: Seq::of(Vec::new(alloc)),
        locals: Seq::of(Vec::new(alloc)),
        asserts: false,
        first: number,
        count: 1,
    })
}

// ---- blocks

fn blocks(alloc: Global, capacity: u64) -> Result<Vec<Block>, AllocError>
    requires { capacity ≤ MOST_ROOM }
    ensures { IfOk result (λ blocks. blocks.items
        ≡ counting_block 0 (has_room capacity) (count_and (pos 1))
        ∷ counting_block 1 has_some (count_and (neg_ℤ (pos 1))) ∷ []) }
{
    let put = counting_block(alloc, PUT_METHOD, has_room(alloc, capacity)?, 1)?;
    let get = counting_block(alloc, GET_METHOD, has_some(alloc)?, -1)?;
    Ok(vec![in alloc; put, get]?)
}

/// The block of a method: it waits on the condition of its guard, and then counts so many more.
fn counting_block(
    alloc: Global,
    method: u32,
    guard: Formula,
    more: i128,
) -> Result<Block, AllocError>
    requires method { method ≤ 1 }
    requires more { is_within 1 more ≡ true }
    ensures { IfOk result (λ block. block ≡ counting_block method guard (count_and more)) }
{
    let assignment = Stmt::Put(Put::Number {
        place: COUNT,
        form: count_form(alloc, 1, more)?,
    });
    Ok(Block {
        method,
        guard,
        body: Seq::of(vec![in alloc; assignment]?),
        result: Ret::Nothing,
        condition: method + 1,
    })
}

/// The guard `count < CAP`.
fn has_room(alloc: Global, capacity: u64) -> Result<Formula, AllocError>
    requires { capacity ≤ MOST_ROOM }
    ensures { IfOk result (λ formula. formula ≡ has_room capacity) }
{
    Ok(Formula::Row(count_form(alloc, 1, 1 - capacity as i128)?))
}

/// The guard `count > 0`.
fn has_some(alloc: Global) -> Result<Formula, AllocError>
    ensures { IfOk result (λ formula. formula ≡ has_some) }
{
    Ok(Formula::Row(count_form(alloc, -1, 1)?))
}

/// The field `count`, which counts 1 or -1 times, and a constant.
fn count_form(alloc: Global, times: i128, constant: i128) -> Result<Lin, AllocError>
    requires times { is_within 1 times ≡ true }
    requires nonzero { times ≢ pos 0 }
    requires constant { is_within MOST_ROOM constant ≡ true }
    ensures terms { IfOk result (λ form. form.terms
        ≡ record { place = 0; times = times } ∷ []) }
    ensures constant { IfOk result (λ form. form.constant ≡ constant) }
{
    let count = Term {
        place: COUNT,
        times,
    };
    Ok(Lin::of(vec![in alloc; count]?, constant))
}

// ---- conditions

fn conditions(alloc: Global, capacity: u64) -> Result<Vec<Condition>, AllocError>
    requires { capacity ≤ MOST_ROOM }
    ensures { IfOk result (λ conditions. conditions.items
        ≡ shown_condition (has_room capacity) room_shown
        ∷ shown_condition has_some some_shown ∷ []) }
{
    let room = shown_condition(alloc, has_room(alloc, capacity)?, b"count < CAP")?;
    let some = shown_condition(alloc, has_some(alloc)?, b"count > 0")?;
    Ok(vec![in alloc; room, some]?)
}

fn shown_condition(alloc: Global, guard: Formula, shown: &[u8]) -> Result<Condition, AllocError>
    ensures { IfOk result (λ condition. condition ≡ shown_condition guard shown.now) }
{
    Ok(Condition {
        guard,
        reads_inputs: false,
        shown: Seq::of(Vec::from_slice(alloc, shown)?),
    })
}
