// Where records lie.

use crate::record_at;

#[test]
fn first_words_of_records(rt: HostRuntime) {
    assert_eq!(rt; record_at(1), 81);
    assert_eq!(rt; record_at(2), 89);
    assert_eq!(rt; record_at(1000), 8073);
}
