//! Tests of `check` with scripts in pieces.
use crate::pipes::{PIECES, sink_of, source_of};
use check_core::{CheckForm, CheckPlace, check};

const SCRIPT: &[u8] = b"value b
timeline a
#= ok 2
value a
#= ok 0
fence f a 5
info f
#= ok f 0 1
";

const DIFFERENCES: &[u8] = b"s:2: timeline a: expected \"ok 2\", came \"ok 1\"
s:7: info f: expected nothing more, came \"fence a sw_sync 5 0\"
";

const PLACE: CheckPlace<'static> = CheckPlace {
    name: "s",
    form: CheckForm::Lines { bold: false },
};

#[test]
fn counts(rt: HostRuntime) {
    for piece in PIECES {
        let mut reader = source_of(SCRIPT, piece);
        let mut writer = sink_of(DIFFERENCES, piece, usize::MAX);
        let tally = check(rt.alloc(), &PLACE, &mut reader, &mut writer).expect(&rt, "counts");
        writer.assert_whole(&rt);
        assert!(rt; tally.lines == 5 && tally.checked == 3 && tally.differing == 2);
    }
}
