//! Flattened forms, as the code makes them.

ghost use Rattle.std.specs.Prelude.{◌≡◌, ◌<◌, ◌^◌, ℕ, pos, ◌*ℤ◌, true, IfOk, length, map};
ghost use Rattle.std.specs.Prelude.{if◌then◌else◌};
ghost use Rattle.std.specs.List.{list_all};
ghost use Rattle.lang_forms.specs.Scope.{signed};
ghost use Rattle.lang_forms.specs.Forms.{IsOrdered, added, is_constant, is_limited, linear_of};
ghost use Rattle.lang_forms.specs.Forms.{meaning_form, name_form, no_times, number_form, once};
ghost use Rattle.lang_forms.specs.Forms.{opposite, plus, raised, scaled, terms_of};
ghost use Rattle.lang_forms.specs.inner.FormBounds.{AreTimesWithin, HasRoom, IsFormOf, FitsLinear};
ghost use Rattle.lang_base.specs.Limits.{GREATEST_CONSTANT, MOST_TIMES};
ghost use Rattle.lang_base.specs.Numbers.{is_within};

use crate::scope::{Entry, Meaning, find};
use lang_base::limits;
use logic_linear::{Lin, Term};
use std::alloc::{AllocError, Global};
use std::marker::Model;

/// How many times each name of a scope counts, and a constant.
#[derive(Debug, Drop)]
pub(crate) struct Flat {
    times: Vec<i128>,
    constant: i128,
}

impl Model for Flat {
    ghost use Rattle.lang_forms.specs.Forms.{Form};

    ghost Value = { Form };

    ghost view = { λ flat. record { times = flat.times.items; constant = flat.constant } };
}

impl Flat {
    /// The form of a number. It fails only for want of memory.
    pub fn number(alloc: Global, scope: &[Entry], number: i128) -> Result<Flat, AllocError>
        ensures { IfOk result (λ flat. flat ≡ number_form scope.now number) }
    {
        Ok(Flat {
            times: no_times(alloc, scope)?,
            constant: number,
        })
    }

    /// The form of a name. It fails only for want of memory.
    pub fn name(alloc: Global, scope: &[Entry], name: &[u8]) -> Result<Flat, AllocError>
        ensures { IfOk result (λ flat. flat ≡ name_form scope.now name.now) }
    {
        match find(scope, name) {
            Some(index) => Flat::meaning(alloc, scope, index, scope[index].meaning),
            None => Flat::number(alloc, scope, 0),
        }
    }

    fn meaning(
        alloc: Global,
        scope: &[Entry],
        index: usize,
        meaning: Meaning,
    ) -> Result<Flat, AllocError>
        requires { index < length scope.now }
        ensures { IfOk result (λ flat. flat ≡ meaning_form scope.now index meaning) }
    {
        match meaning {
            Meaning::Number(number) => Flat::number(alloc, scope, i128::from(number)),
            Meaning::Int { .. } => Flat::once(alloc, scope, index),
            Meaning::Flag { .. } => Flat::number(alloc, scope, 0),
        }
    }

    fn once(alloc: Global, scope: &[Entry], index: usize) -> Result<Flat, AllocError>
        requires { index < length scope.now }
        ensures { IfOk result (λ flat. flat ≡ once scope.now index) }
    {
        let mut times = no_times(alloc, scope)?;
        times[index] = 1;
        Ok(Flat { times, constant: 0 })
    }

    /// Multiplies the form by a number.
    pub fn scale(&mut self, by: i128)
        requires limited { is_limited self.old ≡ true }
        requires by { is_within GREATEST_CONSTANT by ≡ true }
        ensures { self.new ≡ scaled by self.old }
    {
        scale_each(&mut self.times, by);
        self.constant *= by;
    }

    /// Adds a form, or subtracts it where `minus`.
    pub fn add(&mut self, minus: bool, other: &Flat)
        requires length { length self.old.times ≡ length other.now.times }
        requires room { HasRoom self.old }
        requires limited { is_limited other.now ≡ true }
        ensures { self.new ≡ plus self.old (if minus then opposite other.now else other.now) }
    {
        add_each(&mut self.times, minus, &other.times);
        self.constant += signed(minus, other.constant);
    }

    /// Adds one to the constant.
    pub fn raise(&mut self)
        requires { HasRoom self.old }
        ensures { self.new ≡ raised (pos 1) self.old }
    {
        self.constant += 1;
    }

    /// Whether no name counts.
    pub fn is_constant(&self) -> bool
        ensures { result ≡ is_constant self.now }
    {
        self.times.iter().all(|time| *time == 0)
    }

    /// Its constant.
    pub fn constant(&self) -> i128
        ensures { result ≡ self.now.constant }
    {
        self.constant
    }

    /// Whether the numbers of names and the constant have a magnitude of at most their limits.
    pub fn is_limited(&self) -> bool
        ensures { result ≡ is_limited self.now }
    {
        are_times(&self.times) && is_number(self.constant)
    }

    /// The linear form over places. It fails only for want of memory.
    pub fn into_linear(self, alloc: Global, scope: &[Entry]) -> Result<Lin, AllocError>
        requires form { IsFormOf scope.now self }
        requires small { FitsLinear self }
        requires ordered { IsOrdered scope.now }
        ensures { IfOk result (λ linear. linear ≡ linear_of scope.now self) }
    {
        Ok(Lin::of(terms_of(alloc, scope, &self.times)?, self.constant))
    }
}

fn no_times(alloc: Global, scope: &[Entry]) -> Result<Vec<i128>, AllocError>
    ensures { IfOk result (λ times. times.items ≡ no_times scope.now) }
{
    let mut times = Vec::new(alloc);
    for _entry in scope {
        times.push(0)?;
    }
    Ok(times)
}

fn scale_each(times: &mut [i128], by: i128)
    requires limited { list_all (is_within MOST_TIMES) times.old ≡ true }
    requires by { is_within GREATEST_CONSTANT by ≡ true }
    ensures { times.new ≡ map (λ number. by *ℤ number) times.old }
{
    for time in times.iter_mut() {
        *time *= by;
    }
}

fn add_each(times: &mut [i128], minus: bool, others: &[i128])
    requires length { length times.old ≡ length others.now }
    requires room { (parts : ℕ) × (parts < 2 ^ 62) × AreTimesWithin parts times.old }
    requires limited { list_all (is_within MOST_TIMES) others.now ≡ true }
    ensures { times.new ≡ added times.old (map (signed minus) others.now) }
{
    for (index, other) in others.iter().enumerate() {
        times[index] += signed(minus, *other);
    }
}

fn signed(minus: bool, number: i128) -> i128
    requires { is_within GREATEST_CONSTANT number ≡ true }
    ensures { result ≡ signed minus number }
{
    if minus { -number } else { number }
}

/// Whether names may count so many times.
fn are_times(times: &[i128]) -> bool
    ensures { result ≡ list_all (is_within MOST_TIMES) times.now }
{
    times.iter().all(|time| is_time(*time))
}

/// Whether a name may count so many times.
fn is_time(number: i128) -> bool
    ensures { result ≡ is_within MOST_TIMES number }
{
    -limits::MOST_TIMES <= number && number <= limits::MOST_TIMES
}

/// Whether a constant may be this number.
fn is_number(number: i128) -> bool
    ensures { result ≡ is_within GREATEST_CONSTANT number }
{
    -limits::GREATEST_CONSTANT <= number && number <= limits::GREATEST_CONSTANT
}

fn terms_of(alloc: Global, scope: &[Entry], times: &[i128]) -> Result<Vec<Term>, AllocError>
    requires length { length times.now ≡ length scope.now }
    requires small { list_all (is_within (2 ^ 94)) times.now ≡ true }
    ensures { IfOk result (λ terms. terms.items ≡ terms_of scope.now times.now) }
{
    let mut terms = Vec::new(alloc);
    for (index, entry) in scope.iter().enumerate() {
        let times = times[index];
        if times != 0 {
            terms.push(Term {
                place: entry.meaning.place(),
                times,
            })?;
        }
    }
    Ok(terms)
}
