// SPDX-License-Identifier: Apache-2.0
ghost use Rattle.std.specs.Prelude.{◌≡◌, IfOk};
ghost use Rattle.cedar_convert_fragment.specs.Views.{fragment_seen};
ghost use Rattle.cedar_data.specs.Answers.{Accepts, IfRefused};
ghost use Rattle.cedar_fragment_world.specs.FragmentWorlds.{world_of_fragment};
ghost use Rattle.cedar_json_namespaces.specs.Namespaces.{IsFragment, fragment_fault};
ghost use Rattle.cedar_json_write.specs.Written.{fragment_json};
ghost use Rattle.cedar_json_written_laws.specs.Writable.{WritableFragment};
ghost use Rattle.cedar_names.specs.Extensions.{extension_words};
ghost use Rattle.cedar_schema_json.specs.JsonSchemas.{DenotesSchema, JsonCause};
ghost use Rattle.cedar_schema_json.specs.Places.{IsUnplaced};
ghost use Rattle.cedar_schema_json.specs.SchemaViews.{IsConsistent, schema_in};
ghost use Rattle.cedar_schema_json.specs.Fragments.{SoundFragment};
ghost use Rattle.cedar_schema_error.specs.declared.action_behavior.ActionBehavior.TheVariants.{ProhibitAttributes};
ghost use Rattle.cedar_world.specs.Denotes.{Denotes};

use crate::laws::{places_denote_nothing, what_is_written_denotes_the_same};
use cedar_data::Out;
use cedar_fragment::{Fragment, RawName};
use cedar_json_write::ToJson;
use cedar_names::Extensions;
use cedar_resolved::ValidatorSchema;
use cedar_schema_error::SchemaError;
use cedar_schema_json::SchemaJson;
use std::alloc::Global;

/// The schema that is read back from what is written of a fragment in JSON: the one that this denotes, in which nothing
/// has a place, or refused as that is. Where the fragment is sound and may be written, it is the schema that the fragment
/// denotes, and is not refused.
pub fn written_and_read_back(
    alloc: Global,
    fragment: &Fragment<RawName>,
    extensions: &Extensions,
) -> Out<ValidatorSchema, SchemaError>
    ensures denotes { IfOk result (λ schema. DenotesSchema
        (IsFragment (fragment_json fragment.now)) (extension_words extensions.now)
        (schema_in schema)) }
    ensures consistent { IfOk result IsConsistent }
    ensures unplaced { IfOk result IsUnplaced }
    ensures refused { IfRefused result (JsonCause (IsFragment (fragment_json fragment.now))
        (fragment_fault (fragment_json fragment.now)) (extension_words extensions.now)) }
    ensures same { WritableFragment fragment.now
        → SoundFragment ProhibitAttributes (extension_words extensions.now)
        (fragment_seen fragment.now)
        → Accepts (λ schema. Denotes
        (world_of_fragment (fragment_seen fragment.now) (extension_words extensions.now))
        (schema_in schema)) result }
{
    places_denote_nothing();
    what_is_written_denotes_the_same();
    let json = fragment.to_json_value(alloc)?;
    ValidatorSchema::from_json_value(alloc, &json, extensions)
}
