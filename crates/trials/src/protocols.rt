use crate::verdicts::{accepts, refuses};
use levels::FourLevels;
use samples::{
    every_kind_of_row, key_in_the_clear, key_transport, plaintext_trusted,
    secret_signature_published, signed_key_transport,
};
use std::test::Fail;

#[test]
fn samples_have_their_verdicts(rt: HostRuntime) -> Result<(), Fail> {
    accepts(&rt, &FourLevels, key_transport().listing)?;
    accepts(&rt, &FourLevels, signed_key_transport().listing)?;
    accepts(&rt, &FourLevels, every_kind_of_row().listing)?;
    refuses(&rt, &FourLevels, key_in_the_clear().listing, 31, 4)?;
    refuses(&rt, &FourLevels, plaintext_trusted().listing, 31, 11)?;
    refuses(
        &rt,
        &FourLevels,
        secret_signature_published().listing,
        31,
        3,
    )
}
