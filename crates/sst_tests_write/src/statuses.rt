//! The number of each status, with which the program ends.
//!
//! The numbers are this project's own.
use sst_cli::Status;

#[test]
fn the_number_of_each_status(rt: HostRuntime) {
    for (status, number) in [
        (Status::Done, 0),
        (Status::Usage, 1),
        (Status::Input, 2),
        (Status::File, 3),
        (Status::Exhausted, 4),
        (Status::Device, 5),
        (Status::Memory, 6),
    ] {
        assert_eq!(rt; status as u8, number);
    }
}
