// 1X yields to 2X: it finds no run-in in a line that carries a 2X payload. So the two may be read in this order.
use crate::two_x::TwoX;
use onex::one_x::OneX;
use system::yields::Yields;

impl Yields<TwoX> for OneX {
    fn yields(&self, to: &TwoX) {}
}
