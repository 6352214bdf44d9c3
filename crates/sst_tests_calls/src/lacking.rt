//! The line of a call that a format lacks, which no block-based file is asked.
use sst_key::{Call, Reply, Target};
use sst_num::Bytes;
use sst_text::put_reply_line;
use std::test::Fail;

#[test]
fn a_call_that_is_lacking(rt: HostRuntime) -> Result<(), Fail> {
    let call = Call::SeekForPrev(Target {
        user: Bytes::new(rt.alloc()),
        seq: 7,
    });
    let mut out = Vec::new(rt.alloc());
    put_reply_line(&mut out, Reply::Lacks, None, &call)?;
    assert_eq!(rt; out.as_slice(), b"lacks seek_for_prev\n".as_slice());
    Ok(())
}
