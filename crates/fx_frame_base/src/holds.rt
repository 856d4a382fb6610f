ghost use Rattle.std.specs.Prelude.{◌≡◌, ◌<◌, ◌≤◌, ◌+◌, ◌^◌, length};
ghost use Rattle.fx_frame_base.specs.Holds.{hold_sum, line_sum, kinds, held_sum, capacity_sum};

use crate::stage::Stage;

/// How many frames the stages hold together.
pub fn held_by<S: Stage>(stages: &[S]) -> u64
    requires { hold_sum (kinds S.acts stages.now) < 2 ^ 64 }
    ensures value { result ≡ held_sum S.acts stages.now }
    ensures within { result ≤ hold_sum (kinds S.acts stages.now) }
{
    let mut sum = 0;
    'stages: for stage in stages {
        sum += stage.held();
    }
    sum
}

/// How many frames the stages may hold together: the capacities of their lines, and one pending frame for
/// each stage.
pub fn hold_by<S: Stage>(stages: &[S]) -> u64
    requires { hold_sum (kinds S.acts stages.now) < 2 ^ 64 }
    ensures value { result ≡ hold_sum (kinds S.acts stages.now) }
    ensures lines { result ≡ line_sum (kinds S.acts stages.now) + length stages.now }
    ensures capacities { capacity_sum S.acts stages.now ≡ line_sum (kinds S.acts stages.now) }
{
    let mut sum = 0;
    'stages: for stage in stages {
        sum += stage.hold();
    }
    sum
}
