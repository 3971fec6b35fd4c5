use love_base::ChannelNo;

fn number(n: u32) -> Option<u32> {
    Some(ChannelNo::new(n)?.get())
}

#[test]
fn channels_are_numbered_from_1_to_1024(rt: HostRuntime) {
    for (n, kept) in [
        (0, None),
        (1, Some(1)),
        (1_024, Some(1_024)),
        (1_025, None),
        (u32::MAX, None),
    ] {
        assert!(rt; number(n) == kept, "{n}");
    }
}
