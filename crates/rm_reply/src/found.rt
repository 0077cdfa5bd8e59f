// What is found for a name.
ghost use Rattle.std.specs.Prelude.{◌≡◌};
ghost use Rattle.rm_val.specs.Val.{val_of};
ghost use Rattle.rm_val.specs.Spellable.{IsSpellable, HasSpelling};
ghost use Rattle.rm_reply.specs.Answered.{IsGetBinding, IsNextBinding};
ghost use Rattle.rm_reply.specs.Drafting.{OfCells, binding_found};

use rm_group::{Group, Objects};
use rm_val::{Oid, Value};

/// How an answer is looked up by a name.
#[derive(Clone, Copy)]
pub(crate) enum Lookup {
    /// The variable with that name, as GetRequest asks for it.
    Exact,
    /// The variable with the least name above, as GetNextRequest and GetBulkRequest ask for it.
    Above,
}

/// A name, and the value that is answered with it.
#[derive(Drop)]
pub(crate) struct Found<'a> {
    pub name: Oid,
    pub value: Value<'a>,
}

impl Found<'_> {
    ghost use Rattle.rm_reply.specs.Answered.{is_end};

    /// Whether the value is endOfMibView.
    pub fn is_end(&self) -> bool
        ensures { result ≡ is_end (val_of self.now.value) }
    {
        matches!(self.value, Value::EndOfView)
    }
}

impl Lookup {
    ghost use Rattle.rm_reply.specs.Drafting.{OfCells, IsFound, binding_found};

    /// The answer to a name at a moment in milliseconds (RFC 1905, sections 4.2.1 and 4.2.2).
    pub fn answer<'a, G: Group + Objects>(self, groups: &'a G, name: &Oid, now: u32) -> Found<'a>
        requires { IsSpellable name.now }
        ensures answer { OfCells (G.stands groups.entry.now) (G.askable groups.entry.now) G.cells now (λ cells. IsFound cells G.objects self name.now (binding_found result)) }
        ensures name_spelling { IsSpellable result.name }
        ensures spelling { HasSpelling (val_of result.value) }
    {
        match self {
            Lookup::Exact => value_of(groups, name, now),
            Lookup::Above => next_of(groups, name, now),
        }
    }
}

// The answer to a GetRequest for a name.
fn value_of<'a, G: Group + Objects>(groups: &'a G, name: &Oid, now: u32) -> Found<'a>
    requires { IsSpellable name.now }
    ensures answer { OfCells (G.stands groups.entry.now) (G.askable groups.entry.now) G.cells now (λ cells. IsGetBinding cells G.objects name.now (binding_found result)) }
    ensures name_spelling { IsSpellable result.name }
    ensures spelling { HasSpelling (val_of result.value) }
{
    let value = match groups.cell(name, now) {
        Some(value) => value,
        None if G::has_object(name) => Value::NoInstance,
        None => Value::NoObject,
    };
    Found {
        name: name.copied(),
        value,
    }
}

// The answer to a GetNextRequest for a name.
fn next_of<'a, G: Group>(groups: &'a G, name: &Oid, now: u32) -> Found<'a>
    requires { IsSpellable name.now }
    ensures answer { OfCells (G.stands groups.entry.now) (G.askable groups.entry.now) G.cells now (λ cells. IsNextBinding cells name.now (binding_found result)) }
    ensures name_spelling { IsSpellable result.name }
    ensures spelling { HasSpelling (val_of result.value) }
{
    let mut found = Oid::new();
    match groups.after(name, now, &mut found) {
        Some(value) => Found { name: found, value },
        None => Found {
            name: name.copied(),
            value: Value::EndOfView,
        },
    }
}
