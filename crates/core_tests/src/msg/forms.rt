//! Messages in their written forms, and in other spellings.

use super::{
    AUTH_OF_A_SESSION, AUTH_ZERO, COMPLETE_ONE, EXCEPTION_ONE, NAMED_UPDATE, RESPONSE_ZERO,
    START_ZERO, UPDATE_WITH_A_FLOAT, UPDATE_ZERO, is_written,
};

/// Messages in their written forms.
const WRITTEN: [&[u8]; 15] = [
    UPDATE_ZERO,
    COMPLETE_ONE,
    RESPONSE_ZERO,
    EXCEPTION_ONE,
    START_ZERO,
    AUTH_ZERO,
    NAMED_UPDATE,
    AUTH_OF_A_SESSION,
    b"\x83\xaaseq_number\x07\xa2op\xa5print\xa7message\xa2hi",
    b"\x82\xaaseq_number\xcf\x7f\xff\xff\xff\xff\xff\xff\xff\xa2op\xa9keepalive",
    b"\x82\xaaseq_number\x01\xa2op\xafget_worker_info",
    b"\x84\xaaseq_number\x02\xa2op\xb1interrupt_command\xaacommand_id\xb39223372036854775807\xa3why\xa4stop",
    b"\x84\xaaseq_number\x01\xa2op\xa8complete\xaacommand_id\xa210\xa4args\xaccannot start",
    b"\x82\xaaseq_number\x06\xa2op\xa6upload",
    // A session of 64 bytes, the most that one may have.
    b"\x85\xaaseq_number\x00\xa2op\xa4auth\xa8username\xa2w0\xa8password\xa1p\xa7session\xd9\x40ssssssssssssssssssssssssssssssssssssssssssssssssssssssssssssssss",
];

#[test]
fn written_forms_are_read_and_written_back(rt: HostRuntime) {
    for bytes in &WRITTEN {
        assert!(&rt; is_written(rt.alloc(), bytes, bytes), "{bytes:?}");
    }
}

/// Messages in other spellings, and their written forms.
const OTHER_SPELLINGS: [(&[u8], &[u8]); 10] = [
    // The first of a list of line ends counts.
    (
        UPDATE_WITH_A_FLOAT,
        b"\x84\xaaseq_number\x00\xa2op\xa6update\xaacommand_id\xa10\xa4args\x91\x92\xa6stdout\xa2x\n",
    ),
    // Items of three streams, of a name of no meaning and of an exit code that is no integer.
    (
        b"\x84\xaaseq_number\x00\xa2op\xa6update\xaacommand_id\xa10\xa4args\x95\x92\xa6stdout\xa3a\nb\x92\xa6header\xa2h\n\x92\xa6stderr\xa0\x92\xa7elapsed\x01\x92\xa2rc\xc0",
        b"\x84\xaaseq_number\x00\xa2op\xa6update\xaacommand_id\xa10\xa4args\x93\x92\xa6stdout\xa3a\nb\x92\xa6header\xa2h\n\x92\xa6stderr\xa0",
    ),
    // Named logs beside the streams, one without a line, and what stands behind the two parts.
    (
        b"\x84\xaaseq_number\x00\xa2op\xa6update\xaacommand_id\xa10\xa4args\x94\x92\xa6stdout\xa2a\n\x92\xa3log\x92\xa5stdio\x91\xa2s\n\x92\xa3log\x93\xa1l\xa0\xc0\x92\xa2rc\xd1\xff\xff",
        b"\x84\xaaseq_number\x00\xa2op\xa6update\xaacommand_id\xa10\xa4args\x94\x92\xa6stdout\xa2a\n\x92\xa3log\x92\xa5stdio\xa2s\n\x92\xa3log\x92\xa1l\xa0\x92\xa2rc\xff",
    ),
    // Of two pairs with a key the last counts, and other keys are ignored.
    (
        b"\x85\xa1x\xc0\xaaseq_number\x05\xa2op\xa5print\xaaseq_number\x06\xa2op\xa8shutdown",
        b"\x82\xaaseq_number\x06\xa2op\xa8shutdown",
    ),
    // A session that is no str, or of no byte or more than 64, is none.
    (
        b"\x85\xaaseq_number\x00\xa2op\xa4auth\xa8username\xa2w0\xa8password\xa1p\xa7session\x01",
        AUTH_ZERO,
    ),
    (
        b"\x85\xaaseq_number\x00\xa2op\xa4auth\xa8username\xa2w0\xa8password\xa1p\xa7session\xa0",
        AUTH_ZERO,
    ),
    (
        b"\x85\xaaseq_number\x00\xa2op\xa4auth\xa8username\xa2w0\xa8password\xa1p\xa7session\xd9\x41sssssssssssssssssssssssssssssssssssssssssssssssssssssssssssssssss",
        AUTH_ZERO,
    ),
    // A missing result is nil; is_exception counts only where it is true.
    (
        b"\x83\xaaseq_number\x00\xa2op\xa8response\xacis_exception\x01",
        RESPONSE_ZERO,
    ),
    (
        b"\x83\xaaseq_number\x02\xa2op\xa8response\xacis_exception\xc3",
        b"\x84\xaaseq_number\x02\xa2op\xa8response\xa6result\xa7unknown\xacis_exception\xc3",
    ),
    (
        b"\x84\xaaseq_number\x02\xa2op\xa8response\xa6result\x01\xacis_exception\xc3",
        b"\x84\xaaseq_number\x02\xa2op\xa8response\xa6result\xa7unknown\xacis_exception\xc3",
    ),
];

#[test]
fn other_spellings_are_read_alike(rt: HostRuntime) {
    for (bytes, want) in &OTHER_SPELLINGS {
        assert!(&rt; is_written(rt.alloc(), bytes, want), "{bytes:?}");
    }
}
