// SPDX-License-Identifier: Apache-2.0
ghost use Rattle.cedar_convert_fragment.specs.Views.{fragment_seen};
ghost use Rattle.cedar_data.specs.Answers.{Accepts};
ghost use Rattle.cedar_fragment_world.specs.FragmentWorlds.{world_of_fragment};
ghost use Rattle.cedar_json_held_laws.specs.Readable.{IsReadable};
ghost use Rattle.cedar_names.specs.Extensions.{extension_words};
ghost use Rattle.cedar_schema_error.specs.declared.action_behavior.ActionBehavior.TheVariants.{ProhibitAttributes};
ghost use Rattle.cedar_schema_json.specs.Fragments.{SoundFragment};
ghost use Rattle.cedar_schema_json.specs.SchemaViews.{schema_in};
ghost use Rattle.cedar_world.specs.Denotes.{Denotes};

use crate::laws::what_is_held_may_be_written;
use cedar_data::Out;
use cedar_fragment::{Fragment, RawName};
use cedar_json_schema_laws::written_and_read_back;
use cedar_names::Extensions;
use cedar_resolved::ValidatorSchema;
use cedar_schema_error::SchemaError;
use std::alloc::Global;

/// The schema that is read back from what is written in JSON of a fragment that is held. Where the fragment is sound and
/// what is written has the words to say it, it is the schema that the fragment denotes, and is not refused.
pub fn held_is_written_and_read_back(
    alloc: Global,
    fragment: &Fragment<RawName>,
    extensions: &Extensions,
) -> Out<ValidatorSchema, SchemaError>
    ensures { IsReadable (fragment_seen fragment.now)
        → SoundFragment ProhibitAttributes (extension_words extensions.now)
        (fragment_seen fragment.now)
        → Accepts (λ schema. Denotes
        (world_of_fragment (fragment_seen fragment.now) (extension_words extensions.now))
        (schema_in schema)) result }
{
    what_is_held_may_be_written(fragment);
    written_and_read_back(alloc, fragment, extensions)
}
