// SPDX-License-Identifier: Apache-2.0
ghost use Rattle.cedar_answers.specs.Answers.{Answers, IsAcceptance, sunk};
ghost use Rattle.cedar_names.specs.Extensions.{extension_words};
ghost use Rattle.cedar_reviews.specs.Reviewing.{IsReviewable, MakesReview, TellsReview};

use crate::output::answer_written;
use cedar_commands::{Review, Status};
use cedar_names::Extensions;
use cedar_reviews::reviewed;
use cedar_streams::Sink;
use std::alloc::Global;

/// Writes what a review makes of the text, or what is told of its refusal.
pub(crate) fn answer_review<K: Sink, E: Sink>(
    alloc: Global,
    review: Review,
    text: &str,
    extensions: &Extensions,
    out: &mut K,
    err: &mut E,
) -> Status
    ensures answers { Answers (MakesReview review text.now (extension_words extensions.now))
        (TellsReview review text.now (extension_words extensions.now))
        (sunk K.written K.faults out.old) (sunk K.written K.faults out.new)
        (sunk E.written E.faults err.old) (sunk E.written E.faults err.new) result }
    ensures accepts { IsReviewable review text.now (extension_words extensions.now)
        → IsAcceptance result }
{
    let made = reviewed(alloc, review, text, extensions);
    answer_written(&made, out, err)
}
