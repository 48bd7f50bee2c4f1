// SPDX-License-Identifier: Apache-2.0
ghost use Rattle.std.specs.Prelude.{⊤, IfOk};
ghost use Rattle.std.specs.String.{string_bytes};
ghost use Rattle.cedar_data.specs.Answers.{Accepts, IfRefused};
ghost use Rattle.cedar_names.specs.Extensions.{extension_words};
ghost use Rattle.cedar_reviews.specs.Reviewing.{IsReviewable, MakesReview, TellsReview};

use crate::comparing::compare;
use crate::judged::Judged;
use crate::judging::judge;
use crate::merging::merge_schemas;
use cedar_commands::Review;
use cedar_data::Out;
use cedar_names::Extensions;
use std::alloc::Global;

/// What is written where the input, an object in JSON, passes the review with these extension types; or else what is
/// told of its first fault.
#[tactic(auto, unfolding(crate::specs::Reviewing::MakesReview, crate::specs::Reviewing::TellsReview, crate::specs::Reviewing::IsReviewable))]
pub fn reviewed(
    alloc: Global,
    review: Review,
    input: &str,
    extensions: &Extensions,
) -> Out<String, String>
    ensures due { IfOk result (λ due.
        MakesReview review input.now (extension_words extensions.now) (string_bytes due)) }
    ensures told { IfRefused result (λ told.
        TellsReview review input.now (extension_words extensions.now) (string_bytes told)) }
    ensures accepts { IsReviewable review input.now (extension_words extensions.now)
        → Accepts (λ _. ⊤) result }
{
    match review {
        Review::Conform => judge(alloc, Judged::Entities, input, extensions),
        Review::Request => judge(alloc, Judged::Requests, input, extensions),
        Review::Merge => merge_schemas(alloc, input, extensions),
        Review::Compat => compare(alloc, input, extensions),
    }
}
