use crate::Tests;

/// A world with nothing in it.
struct Empty {}

impl Tests for Empty {
    type Value = u32;

    type Thrown = u32;

    type Rest = u32;

    type Source = u32;

    type Table = u32;

    ghost holds = { λ bytes source. Unit {0} };
}

#[test]
fn the_laws_are_there_for_a_world(rt: HostRuntime) {
    crate::what_a_report_tells::<Empty>();
    crate::every_run_has_a_report::<Empty>();
    crate::reports_are_one::<Empty>();
    crate::one_thread_has_one_report::<Empty>();
    crate::groups_part_the_items();
    crate::rows_are_of_items::<Empty>();
    crate::items_are_reported_once::<Empty>();
    crate::every_journal_is_lawful::<Empty>();
    crate::no_frame_is_left_out::<Empty>();
    crate::workers_are_as_one_thread::<Empty>();
    crate::a_stopped_run_fails::<Empty>();
    crate::what_is_shown_is_what_was_counted::<Empty>();
    crate::places_agree::<Empty>();
    let _ = &rt;
}
