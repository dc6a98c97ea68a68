use crate::{Place, Step, pointer_of};
use helix_base::Text;
use std::test::Fail;

#[test]
fn pointers_escape_keys(rt: HostRuntime) -> Result<(), Fail> {
    let cases = [("a/b~c", "#/7/a~1b~0c"), ("\n", "#/7/?"), ("", "#/7/")];
    for (key, want) in cases {
        let mut place = Place::top(rt.alloc());
        place.step_out(Step::Member(Text::of(rt.alloc(), key)?))?;
        place.step_out(Step::Item(7))?;
        let text = pointer_of(rt.alloc(), &place)?;
        let wanted = Text::of(rt.alloc(), want)?;
        assert!(rt; text.codes() == wanted.codes(), "{want}");
    }
    Ok(())
}
