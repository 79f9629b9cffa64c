//! Machines whose cores have signature 0x906ea, processor flags 2 and revision 0xb4, as texts.

/// One core with one thread.
pub const ONE_THREAD: &str =
    "ucode-topology 1\nvendor intel\ncore 0 sig 0x906ea flags 0x2 rev 0xb4\ncpu 0 core 0\n";

/// One core with two threads.
pub const TWO_THREADS: &str = "ucode-topology 1
vendor intel
core 0 sig 0x906ea flags 0x2 rev 0xb4
cpu 0 core 0
cpu 1 core 0
";

/// Two cores of one package, with two threads each.
pub const ONE_PACKAGE: &str = "ucode-topology 2
vendor intel
core 0 package 0 sig 0x906ea flags 0x2 rev 0xb4
core 1 package 0 sig 0x906ea flags 0x2 rev 0xb4
cpu 0 core 0
cpu 1 core 0
cpu 2 core 1
cpu 3 core 1
";
