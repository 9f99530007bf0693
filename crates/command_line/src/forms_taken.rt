ghost use Rattle.std.specs.Prelude.{◌≡◌, [], ◌∷◌, Some, None, codes};
ghost use Rattle.command_line.specs.Plan.{asked, sized, to_make, to_pool, to_run};

/// What some words ask for, so that the definitions can be seen at work. It computes nothing.
pub fn forms()
    // The defaults, an option as two words and as one, and all three at their ends, in any order.
    ensures defaults { asked (codes "sim" ∷ []) ≡ Some (sized 3 2 256) }
    ensures two_words { asked (codes "sim" ∷ codes "--nodes" ∷ codes "04" ∷ []) ≡ Some (sized 4 2 256) }
    ensures one_word { asked (codes "sim" ∷ codes "--shards=7" ∷ []) ≡ Some (sized 3 7 256) }
    ensures ends { asked (codes "sim" ∷ codes "--slots=1024" ∷ codes "--nodes" ∷ codes "15" ∷ codes "--shards=1" ∷ []) ≡ Some (sized 15 1 1024) }
    // A run, and one with as many data workers as there may be, whose option may stand anywhere.
    ensures run { asked (codes "run" ∷ []) ≡ Some (to_run (record { nodes = 3; shards = 2; slots = 256 })) }
    ensures pool { asked (codes "run" ∷ codes "--data" ∷ codes "4" ∷ codes "--nodes=1" ∷ []) ≡ Some (to_pool (record { nodes = 1; shards = 2; slots = 256 }) 4) }
    ensures pool_of_one { asked (codes "run" ∷ codes "--data=1" ∷ []) ≡ Some (to_pool (record { nodes = 3; shards = 2; slots = 256 }) 1) }
    // The greatest number of an input.
    ensures number { asked (codes "gen" ∷ codes "18446744073709551615" ∷ []) ≡ Some (to_make 18446744073709551615) }
    // No subcommand, an option that is set twice, one past its end, one without a number, data workers past theirs, none of them and some for
    // `sim`, no number and too great a one, and help.
    ensures nothing { asked [] ≡ None }
    ensures twice { asked (codes "sim" ∷ codes "--nodes=3" ∷ codes "--nodes" ∷ codes "3" ∷ []) ≡ None }
    ensures past_the_end { asked (codes "sim" ∷ codes "--nodes=16" ∷ []) ≡ None }
    ensures no_number { asked (codes "sim" ∷ codes "--slots" ∷ []) ≡ None }
    ensures workers_past_the_end { asked (codes "run" ∷ codes "--data" ∷ codes "5" ∷ []) ≡ None }
    ensures no_worker { asked (codes "run" ∷ codes "--data=0" ∷ []) ≡ None }
    ensures workers_of_a_replay { asked (codes "sim" ∷ codes "--data=2" ∷ []) ≡ None }
    ensures none_to_make { asked (codes "gen" ∷ []) ≡ None }
    ensures too_great { asked (codes "gen" ∷ codes "18446744073709551616" ∷ []) ≡ None }
    ensures no_help { asked (codes "--help" ∷ []) ≡ None }
{}
