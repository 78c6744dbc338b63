// What a set makes of the clusters that it touches.
use super::listing::{FIRST, SIX, VALUES, are_entries, list_of, plan_of};
use crate::cluster::common::controls_of;
use crate::values::{are_pairs, is_row};
use ctrl_calls::Work;
use ctrl_lists::{Room, Touched, View, plan_set};
use ctrl_types::Which;
use std::test::Fail;

// The clusters that a set gives rows, each with its row; its answers and its pairs.
const ROWS: &[(u32, &[i64])] = &[(3, &[1]), (0, &[10, 2])];

fn are_rows(touched: &Touched, rows: &[(u32, &[i64])]) -> bool {
    for (new, &(cluster, numbers)) in touched.rows().iter().zip(rows) {
        if new.cluster != cluster || !is_row(&new.row, numbers) {
            return false;
        }
    }
    touched.rows().len() == rows.len() && touched.clusters() == [3, 0].as_slice()
}

fn is_touched(touched: Touched, room: &mut Room) -> bool {
    let answers = &[(FIRST + 4, 1), (FIRST + 1, 2)];
    let pairs = &[(4, 1), (1, 2)];
    let are_shown = are_rows(&touched, ROWS)
        && are_entries(touched.answers(), answers)
        && are_pairs(touched.pairs(), pairs);
    let (list, kept) = touched.into_parts(room);
    are_shown && are_entries(list.as_slice(), answers) && are_pairs(kept.as_slice(), pairs)
}

// The second time the rows lie where those of the first lay.
#[test]
fn rows_of_a_set(rt: HostRuntime) -> Result<(), Fail> {
    let alloc = rt.alloc();
    let plan = plan_of(alloc, SIX)?;
    let controls = controls_of(alloc, &plan, &VALUES)?;
    let view = View::new(0, Which::Current, controls.at(&plan), &[]);
    let list = list_of(alloc, &[(FIRST + 4, 1), (FIRST + 1, 2)])?;
    let mut room = Room::new(alloc);
    for _ in 0..2 {
        match plan_set(alloc, &view, &list, &mut room, &mut Work::new()) {
            Ok(touched) => {
                let is_so = is_touched(touched, &mut room);
                assert!(rt; is_so);
            }
            Err(_) => return Err(Fail::new("a set")),
        }
    }
    Ok(())
}
