// SPDX-License-Identifier: Apache-2.0
ghost use Rattle.cedar_convert_fragment.specs.Views.{fragment_seen};
ghost use Rattle.cedar_data.specs.Firsts.{AllPass};
ghost use Rattle.cedar_merge_laws.specs.Together.{InOrder};

use cedar_fragment::{Fragment, RawName};

/// A law: what a fragment declares stands in the order of its names. It changes nothing when it runs.
pub fn fragment_in_order(fragment: &Fragment<RawName>)
    ensures { InOrder (fragment_seen fragment.now) }
{
    cedar_merge::fragment_in_order(fragment);
}

/// The same of several.
pub(crate) fn fragments_in_order(fragments: &[Fragment<RawName>])
    ensures { AllPass (λ f. InOrder (fragment_seen f)) fragments.now }
{
    for fragment in fragments {
        fragment_in_order(fragment);
    }
}
