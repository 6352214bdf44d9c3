//! The laws take no value and answer none: that they can be called is all that a test can show.
use sst_bbt_spec::{
    a_fault_ends_the_way, a_file_stands_for_one_list, a_key_between_separates,
    a_separated_file_stands, a_way_without_a_fault_is_counted, a_whole_index_is_parts_of_one_block,
    each_way_ends_at_the_entry_of_the_list, parts_are_found_where_they_lead,
    places_and_numbers_tell_each_other, separators_before_a_target_come_first, the_tree_decides,
    the_way_is_the_lists, the_way_over_parts_is_the_lists, user_keys_are_compared_alone,
    what_a_file_stands_for_is_ordered,
};
use sst_block::{
    a_block_has_one_list_of_rows, a_seek_passes_the_rows_before, chosen_block_stands_for_its_rows,
    each_group_begins_whole, first_fault_is_first, reading_finds_exactly_the_rows,
};
use sst_index::{
    a_part_is_the_first_not_before, a_seek_passes_the_pairs_before, a_separator_ends,
    a_separator_separates, an_index_block_says_its_pairs, an_index_says_its_pairs,
    an_index_stands_in_a_file, no_key_of_a_part_is_denied, partitions_are_the_pairs,
};
use sst_meta::{
    a_file_loads_as_it_says, a_footer_is_read, a_footer_reads_back, a_meta_fault_is_shown,
    a_name_has_one_value, properties_have_one_restart, the_fault_of_loading_is_the_first,
    what_is_put_is_loaded,
};

#[test]
fn of_blocks(_rt: HostRuntime) {
    chosen_block_stands_for_its_rows();
    each_group_begins_whole();
    reading_finds_exactly_the_rows();
    a_block_has_one_list_of_rows();
    first_fault_is_first();
    a_seek_passes_the_rows_before();
}

#[test]
fn of_an_index(_rt: HostRuntime) {
    a_separator_separates();
    a_separator_ends();
    a_seek_passes_the_pairs_before();
    a_part_is_the_first_not_before();
    an_index_block_says_its_pairs();
    an_index_says_its_pairs();
    an_index_stands_in_a_file();
    partitions_are_the_pairs();
    no_key_of_a_part_is_denied();
}

#[test]
fn of_what_a_file_says(_rt: HostRuntime) {
    a_name_has_one_value();
    properties_have_one_restart();
    a_footer_reads_back();
    a_footer_is_read();
    a_file_loads_as_it_says();
    a_meta_fault_is_shown();
    the_fault_of_loading_is_the_first();
    what_is_put_is_loaded();
}

#[test]
fn of_what_a_file_stands_for(_rt: HostRuntime) {
    the_way_is_the_lists();
    what_a_file_stands_for_is_ordered();
    a_separated_file_stands();
    a_key_between_separates();
    a_file_stands_for_one_list();
    a_whole_index_is_parts_of_one_block();
}

#[test]
fn of_ways_over_parts(_rt: HostRuntime) {
    the_way_over_parts_is_the_lists();
    user_keys_are_compared_alone();
    separators_before_a_target_come_first();
    the_tree_decides();
    a_way_without_a_fault_is_counted();
    each_way_ends_at_the_entry_of_the_list();
    a_fault_ends_the_way();
    places_and_numbers_tell_each_other();
    parts_are_found_where_they_lead();
}
