// The order's own test: each frame once. One pass over the ranks; `seen` has the frames that stand at lower ranks.
ghost use Rattle.std.specs.Prelude.{◌≡◌, ◌≤◌, length};
ghost use Rattle.links.specs.Order.{order_test};

use refusal::{Reason, Refusal, refused};

// Fine, or ORDER at the lowest rank whose value is n or more or stands at a lower rank.
pub fn each_once(n: usize, order: &[u32]) -> Result<(), Refusal>
    requires { (n ≤ 4096) × (length order.now ≡ n) }
    ensures { result ≡ order_test n order.now }
{
    let mut seen = [false; 4096];
    for (r, frame) in order.iter().enumerate() {
        let v = *frame as usize;
        if n <= v {
            return refused(Reason::Order, r);
        }
        if seen[v] {
            return refused(Reason::Order, r);
        }
        seen[v] = true;
    }
    Ok(())
}
