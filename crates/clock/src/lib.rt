// The clock: a scan brings it forward by the elapsed time, and it is held at the largest wait.
#![tactic(auto)]

ghost use Rattle.std.specs.Prelude.{◌≡◌};
ghost use Rattle.clock.specs.Onward.{onward};

// The lesser of clock plus elapsed and 16,777,215, for any 32-bit clock and elapsed; no sum here can wrap.
pub fn bring_forward(clock: u32, elapsed: u32) -> u32
    ensures { result ≡ onward clock elapsed }
{
    clock.saturating_add(elapsed).min(16_777_215)
}
