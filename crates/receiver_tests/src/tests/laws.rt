//! A law is the contract of a function that does nothing: a call of each shows that it may be cited.

use hf_modem::{
    hf_items_are_all, hf_items_join, one_list_of_hf_candidates, some_list_of_hf_candidates,
};
use hf_signal::{
    hf_carried_frames, hf_level_frames, hf_near_frames, hf_near_windows, hf_none_stray,
    hf_sent_is_near,
};
use ring_receiver::eight_lanes_alone;
use sensitive_receiver::{
    one_list_of_all_lanes, sensitive_carried_frames, sensitive_items_are_all, sensitive_items_join,
    sensitive_level_frames, sensitive_near_frames, sensitive_none_stray, some_list_of_all_lanes,
};

#[test]
fn laws_of_short_wave() {
    one_list_of_hf_candidates();
    some_list_of_hf_candidates();
    hf_items_join();
    hf_items_are_all();
}

#[test]
fn laws_of_signals_on_short_wave() {
    hf_near_windows();
    hf_near_frames();
    hf_level_frames();
    hf_sent_is_near();
    hf_carried_frames();
    hf_none_stray();
}

#[test]
fn laws_of_all_lanes() {
    one_list_of_all_lanes();
    some_list_of_all_lanes();
    sensitive_items_join();
    sensitive_items_are_all();
    eight_lanes_alone();
}

#[test]
fn laws_of_signals_for_all_lanes() {
    sensitive_near_frames();
    sensitive_level_frames();
    sensitive_carried_frames();
    sensitive_none_stray();
}
