// SPDX-License-Identifier: Apache-2.0
ghost use Rattle.std.specs.Prelude.{ℕ, List};
ghost use Rattle.cedar_answer_laws.specs.Single.{AtMostOne};
ghost use Rattle.cedar_answers.specs.Making.{Makes, Tells};
ghost use Rattle.cedar_commands.specs.declared.command.Command.TheVariants.{Bench, Check, Resolve, ResolveJson, Review, ToCedar, ToJson};
ghost use Rattle.cedar_commands.specs.declared.command.Review.TheVariants.{Compat, Conform, Merge, Request};

/// A law: what a command makes of a text is one text. It does nothing when it runs.
#[tactic(auto, using(crate::proofs::Due::one_resolved, crate::proofs::Due::one_resolved_json, crate::proofs::Due::one_checked, crate::proofs::Due::one_to_json, crate::proofs::Due::one_to_cedar, crate::proofs::Due::one_conform, crate::proofs::Requests::one_request, crate::proofs::Merges::one_merge, crate::proofs::Due::one_compat, crate::proofs::Due::one_bench))]
pub fn one_due()
    ensures resolve { (text : List ℕ) (extensions : List (List ℕ))
        → AtMostOne (Makes Resolve text extensions) }
    ensures resolve_json { (text : List ℕ) (extensions : List (List ℕ))
        → AtMostOne (Makes ResolveJson text extensions) }
    ensures check { (text : List ℕ) (extensions : List (List ℕ))
        → AtMostOne (Makes Check text extensions) }
    ensures to_json { (text : List ℕ) (extensions : List (List ℕ))
        → AtMostOne (Makes ToJson text extensions) }
    ensures to_cedar { (text : List ℕ) (extensions : List (List ℕ))
        → AtMostOne (Makes ToCedar text extensions) }
    ensures conform { (text : List ℕ) (extensions : List (List ℕ))
        → AtMostOne (Makes (Review Conform) text extensions) }
    ensures request { (text : List ℕ) (extensions : List (List ℕ))
        → AtMostOne (Makes (Review Request) text extensions) }
    ensures merge { (text : List ℕ) (extensions : List (List ℕ))
        → AtMostOne (Makes (Review Merge) text extensions) }
    ensures compat { (text : List ℕ) (extensions : List (List ℕ))
        → AtMostOne (Makes (Review Compat) text extensions) }
    ensures bench { (n : ℕ) (text : List ℕ) (extensions : List (List ℕ))
        → AtMostOne (Makes (Bench n) text extensions) }
{}

/// A law: what a command tells of a text that it refuses is one text. It does nothing when it runs.
#[tactic(auto, using(crate::proofs::Told::one_resolve_told, crate::proofs::Told::one_resolve_json_told, crate::proofs::Told::one_check_told, crate::proofs::Told::one_to_json_told, crate::proofs::Told::one_to_cedar_told, crate::proofs::ReviewsTold::one_conform_told, crate::proofs::ReviewsTold::one_request_told, crate::proofs::UnmergedTold::one_merge_told, crate::proofs::ReviewsTold::one_compat_told, crate::proofs::Told::one_bench_told))]
pub fn one_told()
    ensures resolve { (text : List ℕ) (extensions : List (List ℕ))
        → AtMostOne (Tells Resolve text extensions) }
    ensures resolve_json { (text : List ℕ) (extensions : List (List ℕ))
        → AtMostOne (Tells ResolveJson text extensions) }
    ensures check { (text : List ℕ) (extensions : List (List ℕ))
        → AtMostOne (Tells Check text extensions) }
    ensures to_json { (text : List ℕ) (extensions : List (List ℕ))
        → AtMostOne (Tells ToJson text extensions) }
    ensures to_cedar { (text : List ℕ) (extensions : List (List ℕ))
        → AtMostOne (Tells ToCedar text extensions) }
    ensures conform { (text : List ℕ) (extensions : List (List ℕ))
        → AtMostOne (Tells (Review Conform) text extensions) }
    ensures request { (text : List ℕ) (extensions : List (List ℕ))
        → AtMostOne (Tells (Review Request) text extensions) }
    ensures merge { (text : List ℕ) (extensions : List (List ℕ))
        → AtMostOne (Tells (Review Merge) text extensions) }
    ensures compat { (text : List ℕ) (extensions : List (List ℕ))
        → AtMostOne (Tells (Review Compat) text extensions) }
    ensures bench { (n : ℕ) (text : List ℕ) (extensions : List (List ℕ))
        → AtMostOne (Tells (Bench n) text extensions) }
{}
