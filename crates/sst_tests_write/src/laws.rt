//! The laws take no value and answer none: that they can be called is all that a test can show.
use sst_bbt_read::{
    a_file_opens_or_fails, a_file_that_opens_shows_no_fault, the_fault_of_opening_is_the_first,
};
use sst_bbt_write::{a_list_is_cut_where_blocks_are_full, written_file_stands_for_its_list};
use sst_cli::{
    a_call_list_reads_back, a_command_is_by_its_words, a_filtered_walk_is_what_is_visible,
    a_list_reads_back, a_told_world_has_one_outcome, a_written_file_reads_back,
    what_a_get_comes_to, what_a_run_comes_to, what_a_scan_comes_to, what_a_text_says_fits,
    what_a_write_comes_to, what_calls_come_to, what_reading_a_file_comes_to,
};
use sst_text::{
    a_call_line_is_that_of_its_call, a_call_line_reads_back, an_entry_line_is_that_of_its_entry,
    an_entry_line_reads_back,
};

#[test]
fn laws(_rt: HostRuntime) {
    written_file_stands_for_its_list();
    a_list_is_cut_where_blocks_are_full();
    an_entry_line_reads_back();
    a_list_reads_back();
    a_call_line_reads_back();
    an_entry_line_is_that_of_its_entry();
    a_call_line_is_that_of_its_call();
    a_call_list_reads_back();
    what_a_text_says_fits();
    a_file_opens_or_fails();
    a_written_file_reads_back();
    a_file_that_opens_shows_no_fault();
    the_fault_of_opening_is_the_first();
    a_command_is_by_its_words();
    a_told_world_has_one_outcome();
    what_a_run_comes_to();
    what_a_write_comes_to();
    what_calls_come_to();
    what_a_get_comes_to();
    what_a_scan_comes_to();
    a_filtered_walk_is_what_is_visible();
    what_reading_a_file_comes_to();
}
