ghost use Rattle.std.specs.Prelude.{◌≡◌, ◌<◌, ◌^◌};
ghost use Rattle.bp_base.specs.Generator.{drawn, next_state};

/// The generator's next number, below 32,768; the state goes on to the next one. The state is below 2^32 at the start.
pub fn draw(state: &mut u64) -> u64
    requires { state.old < 2 ^ 32 }
    ensures number { result ≡ drawn state.old }
    ensures next { state.new ≡ next_state state.old }
    ensures small { state.new < 2 ^ 31 }
{
    *state = (*state * 1_103_515_245 + 12_345) % 2_147_483_648;
    *state / 65_536
}
