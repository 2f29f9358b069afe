// Numbers that count up: of lines, and of accepted ticks.
ghost use Rattle.std.specs.Prelude.{◌≡◌};
ghost use Rattle.replay_calls.specs.Counts.{next_number, count_after};

// The next number; the last of all stays.
#[tactic(auto, unfolding(crate::specs::Counts::next_number))]
pub fn next(n: u64) -> u64
    ensures { result ≡ next_number n }
{
    n.saturating_add(1)
}

// The ticks accepted after one that was answered a number: only one that is accepted counts.
#[tactic(auto, unfolding(crate::specs::Counts::count_after))]
pub fn counted(number: u8, count: u64) -> u64
    ensures { result ≡ count_after number count }
{
    if number == 0 { next(count) } else { count }
}
