// Counts and holds, with the ends at which they stay.
ghost use Rattle.std.specs.Prelude.{◌≡◌};
ghost use Rattle.aec3_common.specs.Counts.{one_more, fallen as Counts·fallen};

// One more of what is counted.
#[tactic(auto, unfolding(crate::specs::Counts::one_more))]
pub fn one_more(n: u32) -> u32
    ensures { result ≡ one_more n }
{
    n.saturating_add(1)
}

// A hold, one block later.
#[tactic(auto, unfolding(crate::specs::Counts::fallen))]
pub fn fallen(hold: i32) -> i32
    ensures { result ≡ Counts·fallen hold }
{
    hold.saturating_sub(1)
}
