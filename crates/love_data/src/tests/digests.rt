//! The test vectors of RFC 1321 and FIPS 180-4, and of the same messages by the other digests as
//! the system's tools give them.

use crate::{Format, HashKind, digest, encode};
use std::test::Fail;

const TWO_BLOCKS: &[u8] = b"abcdbcdecdefdefgefghfghighijhijkijkljklmklmnlmnomnopnopq";

const LONG: &[u8] = b"abcdefghbcdefghicdefghijdefghijkefghijklfghijklmghijklmnhijklmno\
    ijklmnopjklmnopqklmnopqrlmnopqrsmnopqrstnopqrstu";

#[test]
fn digests_of_the_standards_messages(rt: HostRuntime) -> Result<(), Fail> {
    let rows: [(HashKind, &[u8], &str); 24] = [
        (HashKind::Md5, b"", "d41d8cd98f00b204e9800998ecf8427e"),
        (HashKind::Md5, b"abc", "900150983cd24fb0d6963f7d28e17f72"),
        (
            HashKind::Md5,
            TWO_BLOCKS,
            "8215ef0796a20bcaaae116d3876c664a",
        ),
        (HashKind::Md5, LONG, "03dd8807a93175fb062dfb55dc7d359c"),
        (
            HashKind::Sha1,
            b"",
            "da39a3ee5e6b4b0d3255bfef95601890afd80709",
        ),
        (
            HashKind::Sha1,
            b"abc",
            "a9993e364706816aba3e25717850c26c9cd0d89d",
        ),
        (
            HashKind::Sha1,
            TWO_BLOCKS,
            "84983e441c3bd26ebaae4aa1f95129e5e54670f1",
        ),
        (
            HashKind::Sha1,
            LONG,
            "a49b2446a02c645bf419f995b67091253a04a259",
        ),
        (
            HashKind::Sha224,
            b"",
            "d14a028c2a3a2bc9476102bb288234c415a2b01f828ea62ac5b3e42f",
        ),
        (
            HashKind::Sha224,
            b"abc",
            "23097d223405d8228642a477bda255b32aadbce4bda0b3f7e36c9da7",
        ),
        (
            HashKind::Sha224,
            TWO_BLOCKS,
            "75388b16512776cc5dba5da1fd890150b0c6455cb4f58b1952522525",
        ),
        (
            HashKind::Sha224,
            LONG,
            "c97ca9a559850ce97a04a96def6d99a9e0e0e2ab14e6b8df265fc0b3",
        ),
        (
            HashKind::Sha256,
            b"",
            "e3b0c44298fc1c149afbf4c8996fb92427ae41e4649b934ca495991b7852b855",
        ),
        (
            HashKind::Sha256,
            b"abc",
            "ba7816bf8f01cfea414140de5dae2223b00361a396177a9cb410ff61f20015ad",
        ),
        (
            HashKind::Sha256,
            TWO_BLOCKS,
            "248d6a61d20638b8e5c026930c3e6039a33ce45964ff2167f6ecedd419db06c1",
        ),
        (
            HashKind::Sha256,
            LONG,
            "cf5b16a778af8380036ce59e7b0492370b249b11e8f07a51afac45037afee9d1",
        ),
        (
            HashKind::Sha384,
            b"",
            "38b060a751ac96384cd9327eb1b1e36a21fdb71114be07434c0cc7bf63f6e1da\
         274edebfe76f65fbd51ad2f14898b95b",
        ),
        (
            HashKind::Sha384,
            b"abc",
            "cb00753f45a35e8bb5a03d699ac65007272c32ab0eded1631a8b605a43ff5bed\
         8086072ba1e7cc2358baeca134c825a7",
        ),
        (
            HashKind::Sha384,
            TWO_BLOCKS,
            "3391fdddfc8dc7393707a65b1b4709397cf8b1d162af05abfe8f450de5f36bc6\
         b0455a8520bc4e6f5fe95b1fe3c8452b",
        ),
        (
            HashKind::Sha384,
            LONG,
            "09330c33f71147e83d192fc782cd1b4753111b173b3b05d22fa08086e3b0f712\
         fcc7c71a557e2db966c3e9fa91746039",
        ),
        (
            HashKind::Sha512,
            b"",
            "cf83e1357eefb8bdf1542850d66d8007d620e4050b5715dc83f4a921d36ce9ce\
         47d0d13c5d85f2b0ff8318d2877eec2f63b931bd47417a81a538327af927da3e",
        ),
        (
            HashKind::Sha512,
            b"abc",
            "ddaf35a193617abacc417349ae20413112e6fa4e89a97ea20a9eeee64b55d39a\
         2192992a274fc1a836ba3c23a3feebbd454d4423643ce80e2a9ac94fa54ca49f",
        ),
        (
            HashKind::Sha512,
            TWO_BLOCKS,
            "204a8fc6dda82f0a0ced7beb8e08a41657c16ef468b228a8279be331a703c335\
         96fd15c13b1b07f9aa1d3bea57789ca031ad85c7a71dd70354ec631238ca3445",
        ),
        (
            HashKind::Sha512,
            LONG,
            "8e959b75dae313da8cf4f72814fc143f8f7779c6eb9f7fa17299aeadb6889018\
         501d289e4900f7e4331b99dec4b5433ac7d329eeb6dd26545e96e55b874be909",
        ),
    ];
    for (kind, message, expected) in rows {
        let text = encode(rt.alloc(), Format::Hex, digest(kind, message).bytes())?;
        assert_eq!(rt;
            text.bytes(),
            expected.as_bytes(),
            "{kind:?} of {} bytes",
            message.len()
        );
    }
    Ok(())
}
