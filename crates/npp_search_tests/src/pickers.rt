//! What pickers see.

ghost use Rattle.std.specs.Prelude.{◌<◌, false, length};

use crate::found::tree;
use crate::reports::ONE_TOLL;
use npp_fixtures::THREE_PAIRS;
use npp_frac::{Frac32, Frac64};
use npp_search::{OpenNode, Picker};
use std::fmt::Write;
use std::test::Fail;

/// Takes the node that was made first, and notes the number and the depth of each node that it takes.
#[derive(Drop)]
struct Oldest {
    taken: String,
    failed: bool,
}

impl Picker for Oldest {
    ghost best_first = { λ _. false };

    fn pick(&mut self, live: &[OpenNode]) -> usize
        requires { 0 < length live.now }
        ensures in_range { result < length live.now }
    {
        let mut oldest = 0;
        for place in 1..live.len() {
            if live[place].number < live[oldest].number {
                oldest = place;
            }
        }
        let OpenNode { number, depth, .. } = live[oldest];
        if write!(self.taken, " {number}:{depth}").is_err() {
            self.failed = true;
        }
        oldest
    }
}

/// The root has the number 0 and the depth 0, and of two children the first has the lower number. A node that the lower value cuts off
/// is never taken.
#[test]
fn nodes_have_numbers_and_depths(rt: HostRuntime) -> Result<(), Fail> {
    let mut picker = Oldest {
        taken: String::new(rt.alloc()),
        failed: false,
    };
    let found = tree::<Frac64, Oldest>(rt.alloc(), THREE_PAIRS, 1000, &mut picker)?;
    assert_eq!(rt;
        found.as_str(),
        "optimal 15 15 2 at 3\ndual 78/5 split 2 1\nopen 14\ndual 15\n"
    );
    picker.taken.push_str(" then")?;
    let found = tree::<Frac32, Oldest>(rt.alloc(), ONE_TOLL, 1000, &mut picker)?;
    assert!(rt; found.starts_with("overflow 1900001 2800000 10 at 1\n"));
    assert!(rt; !picker.failed);
    assert_eq!(rt;
        picker.taken.as_str(),
        " 0:0 2:1 then 0:0 1:1 2:1 3:2 4:2 5:2 7:3 8:3 9:3 11:3"
    );
    Ok(())
}
