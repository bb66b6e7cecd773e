// A source of another crate may end with a refusal that is on neither list.
ghost use Rattle.std.specs.Prelude.{◌≡◌, [], Some};

use crate::branch::Placed;
use crate::fault::{Cause, Fault, Layer};
use crate::place::Place;
use crate::source::Source;
use std::test::Fail;

// No branches, and this fault at once.
#[derive(Drop)]
struct Failing {
    fault: Fault,
}

impl Source for Failing {
    ghost feed = { λ s. record { items = []; ending = Some s.fault } };

    ghost legend = { λ _. [] };

    fn next(&mut self) -> Result<Option<Placed>, Fault> {
        Err(self.fault)
    }
}

#[test]
fn a_number_on_neither_list(rt: HostRuntime) -> Result<(), Fail> {
    let mut source = Failing {
        fault: Fault {
            cause: Cause::Other {
                number: 40,
                layer: Layer::Reader,
            },
            place: Place { line: 7, byte: 9 },
        },
    };
    let Err(fault) = source.next() else {
        return Err(Fail::new("no fault"));
    };
    let printed = format!(in rt.alloc(); "{fault}")?;
    assert_eq!(rt; printed.as_str(), "refused 40 reader line 7 byte 9");
    Ok(())
}
