// SPDX-License-Identifier: Apache-2.0
ghost use Rattle.std.specs.Prelude.{◌≡◌, option_map};
ghost use Rattle.std.specs.Option.{option_copied};
ghost use Rattle.std.specs.Cmp.Lexicographic.{slice_cmp};
ghost use Rattle.std.specs.Ordering.{nat_cmp};
ghost use Rattle.cedar_data.specs.Maps.{IsSortedMap};
ghost use Rattle.cedar_unfold.specs.Following.{next_entry};

use cedar_data::{Map, Near, Text};

/// The entry that follows the key in the order of the keys, or the first one. It is found without a walk, in few steps
/// where each call goes on from where the last one ended, which `near` tells.
pub(crate) fn next_entry<'a, V>(
    map: &'a Map<Text, V>,
    near: &mut Near,
    after: Option<&Text>,
) -> Option<(&'a Text, &'a V)>
    ensures next { option_map (λ e. (e.0.now, e.1.now)) result
        ≡ next_entry (option_copied after.entry) map.now }
    ensures ordered { IsSortedMap (slice_cmp nat_cmp) map.now }
{
    let mut entries = map.iter();
    match after {
        Some(key) => map.after_near(near, key),
        None => entries.next(),
    }
}
