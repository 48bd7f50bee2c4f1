// SPDX-License-Identifier: Apache-2.0
ghost use Rattle.std.specs.Prelude.{◌≡◌, ◌<◌, length, decimal};
ghost use Rattle.std.specs.List.{sum_by};
ghost use Rattle.std.specs.Map.{values_of};
ghost use Rattle.cedar_listing.specs.Counts.{below_action, below_type, count_text, counted, counts, descendants, environments, environments_of, line_of};
ghost use Rattle.cedar_resolved.specs.Schemas.{action_types, types};
ghost use Rattle.cedar_streams.specs.Writes.{Writes};

use cedar_convert_warnings::SchemaWarning;
use cedar_resolved::{ValidatorActionId, ValidatorSchema};
use cedar_streams::{Sink, SinkFailed, write_all, write_str};

/// How many of each there are, each up to the greatest `u128`.
#[derive(Drop)]
struct Counts {
    entity_types: u128,
    actions: u128,
    warnings: u128,
    descendants: u128,
    environments: u128,
}

impl Counts {
    /// Those of a schema and of its warnings.
    fn of(schema: &ValidatorSchema, warnings: &[SchemaWarning]) -> Counts
        ensures entity_types { result.entity_types ≡ counted (length (types schema.now)) }
        ensures actions { result.actions ≡ counted (length (action_types schema.now)) }
        ensures warnings { result.warnings ≡ counted (length warnings.now) }
        ensures descendants { result.descendants ≡ counted (descendants schema.now) }
        ensures environments { result.environments ≡ counted (environments schema.now) }
    {
        Counts {
            entity_types: schema.entity_types().len() as u128,
            actions: schema.action_ids().len() as u128,
            warnings: warnings.len() as u128,
            descendants: count_below_types(schema).saturating_add(count_below_actions(schema)),
            environments: count_environments(schema),
        }
    }

    /// Writes their line.
    #[tactic(auto, using(cedar_streams::proofs::InOrder::in_order))]
    fn write<K: Sink>(&self, out: &mut K) -> Result<(), SinkFailed>
        ensures { Writes K.written K.faults out.old out.new
            (line_of self.now.entity_types self.now.actions self.now.warnings self.now.descendants self.now.environments) result }
    {
        write_count(self.entity_types, " entity types, ", out)?;
        write_count(self.actions, " actions, ", out)?;
        write_count(self.warnings, " warnings, ", out)?;
        write_count(self.descendants, " descendants, ", out)?;
        write_count(self.environments, " request environments\n", out)
    }
}

/// Writes the line of counts: of entity types, actions and warnings, of the descendants of all entity types and actions,
/// and of the pairs of a principal and a resource of all actions. It takes no memory. A failure leaves a front of the
/// line written.
pub fn write_counts<K: Sink>(
    schema: &ValidatorSchema,
    warnings: &[SchemaWarning],
    out: &mut K,
) -> Result<(), SinkFailed>
    ensures { Writes K.written K.faults out.old out.new (counts schema.now warnings.now) result }
{
    let counts = Counts::of(schema, warnings);
    counts.write(out)
}

/// How many entity types descend from those of a schema, counted at each of them.
#[tactic(auto, using(crate::proofs::Counting::counting))]
fn count_below_types(schema: &ValidatorSchema) -> u128
    ensures { result ≡ counted (sum_by below_type (values_of (types schema.now))) }
{
    let mut count: u128 = 0;
    for ty in schema.entity_types() {
        count = count.saturating_add(ty.descendants.len() as u128);
    }
    count
}

/// How many actions descend from those of a schema, counted at each of them.
#[tactic(auto, using(crate::proofs::Counting::counting))]
fn count_below_actions(schema: &ValidatorSchema) -> u128
    ensures { result ≡ counted (sum_by below_action (values_of (action_types schema.now))) }
{
    let mut count: u128 = 0;
    for action in schema.action_ids() {
        count = count.saturating_add(action.descendants().len() as u128);
    }
    count
}

/// How many request environments the actions of a schema have.
#[tactic(auto, using(crate::proofs::Counting::counting))]
fn count_environments(schema: &ValidatorSchema) -> u128
    ensures { result ≡ counted (environments schema.now) }
{
    let mut count: u128 = 0;
    for action in schema.action_ids() {
        count = count.saturating_add(environments_of(action));
    }
    count
}

/// How many request environments an action has: each of its principals with each of its resources.
fn environments_of(action: &ValidatorActionId) -> u128
    ensures { result ≡ counted (environments_of action.now) }
{
    let principals = action.principals().len() as u128;
    let resources = action.resources().len() as u128;
    principals.saturating_mul(resources)
}

/// Writes a count with what is counted.
#[tactic(auto, using(cedar_streams::proofs::InOrder::in_order))]
fn write_count<K: Sink>(count: u128, what: &str, out: &mut K) -> Result<(), SinkFailed>
    ensures { Writes K.written K.faults out.old out.new (count_text count what.now) result }
{
    write_decimal(count, out)?;
    write_str(out, what)
}

/// Writes a number in decimal digits: those before the last, and then the last one.
fn write_decimal<K: Sink>(number: u128, out: &mut K) -> Result<(), SinkFailed>
    ensures { Writes K.written K.faults out.old out.new (decimal number) result }
{
    if number < 10 {
        return write_digit(number, out);
    }
    write_decimal(number / 10, out)?;
    write_digit(number % 10, out)
}

/// Writes a number below ten.
fn write_digit<K: Sink>(digit: u128, out: &mut K) -> Result<(), SinkFailed>
    requires { digit < 10 }
    ensures { Writes K.written K.faults out.old out.new (decimal digit) result }
{
    write_all(out, &[b'0' + digit as u8])
}
