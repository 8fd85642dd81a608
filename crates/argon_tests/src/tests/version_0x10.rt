//! Tags of version 0x10.
use super::rows::right_rows;

// The reference program's own tests (phc-winner-argon2, src/test.c): Argon2i, `password`, `somesalt`,
// two passes, 256 KiB, and so many lanes.
static KNOWN: &str = "\
    i 2 256 1 fd4dd83d762c49bdeaf57c47bdcd0c2f1babf863fdeb490df63ede9975fccf06\n\
    i 2 256 2 b6c11560a6a9d61eac706b79a2f97d68b4463aa3ad87e00c07e2b01e90c564fb\n\
";

// Kind, passes, memory, lanes and tag, as Debian's program (argon2 0~20171227) prints it:
//     printf password | argon2 somesalt -KIND -t PASSES -k MEMORY -p LANES -l 16 -v 10 -r
static ROWS: &str = "\
    d 1 74 1 a0855082d65117d051bcf334e9880918\n\
    d 1 128 2 fe5109e6be790b88013ae7ee6e0a0f42\n\
    d 1 37 3 197044595054ba7d5b2b2fd33e79a1ea\n\
    d 1 40 4 e3ff5edce05fa299ded1a0ce9cc18481\n\
    d 2 128 1 379d170aedde7bdee5f410aa36928497\n\
    d 2 37 2 0aa6b7544a4c59cf4673ba8306f078cf\n\
    d 2 40 3 3078e8d097c3e8e0f066673ec735bd2a\n\
    d 2 74 4 bd5129ec71313acc3663856d19ec89e0\n\
    d 3 37 1 690b7d0499c7abfaabc531ef9bc6f84c\n\
    d 3 40 2 8743f0b24721137091b395ac074cfb1f\n\
    d 3 74 3 5112aa87a097a351d3f61050e7be789b\n\
    d 3 128 4 2852489e978e82e779dd5498076f3d0e\n\
    i 1 74 1 8e09d074c3d88fb5d9fd93d56b0168f4\n\
    i 1 128 2 09b7615f39a8ca316c3ba385fc792fda\n\
    i 1 37 3 8f002a365c653da3680ca94394f5ea99\n\
    i 1 40 4 5c9c296aeb49f7195ba4a510b027d044\n\
    i 2 128 1 8c89e572423b717c8c40099f966f94a7\n\
    i 2 37 2 5ada0d0ceb9d4ffe964007203ab98fc7\n\
    i 2 40 3 fe8afb054870e9b41b16e9b06f7e1274\n\
    i 2 74 4 5f3ee69d7b2808a66b3297649ca8ece2\n\
    i 3 37 1 c7aabca0b86b727cd4006ec47e3031b0\n\
    i 3 40 2 3df9d6bc96b508337c686ef009b875a6\n\
    i 3 74 3 2c835544eed8ff16223e3dcf2cf0bcab\n\
    i 3 128 4 1266a23fffc8273dcf39cc7074a791dc\n\
    id 1 74 1 83fd2b50dad5c6ad4bf36075253450f0\n\
    id 1 128 2 6e73c481583790bec526857fdf6506b5\n\
    id 1 37 3 d2ae27a212742e765f3a0da56c2afe47\n\
    id 1 40 4 f7281d1ebec8ec82a8d17d8459de81aa\n\
    id 2 128 1 cb57fe0c2450c69b5b12bd9d3a7046ff\n\
    id 2 37 2 0697692426ae42124c9e51e606674413\n\
    id 2 40 3 c7e55acbdd522c55a2ab6fced325d1a7\n\
    id 2 74 4 ccc4c4a79c0f2add73374ed923ac3749\n\
    id 3 37 1 fd98750a18596353a999438b4ea9aabe\n\
    id 3 40 2 b7aae3055ebba407a79e1c1d004de8ab\n\
    id 3 74 3 bc7f7f48df5a5a4f074d5e386facea5b\n\
    id 3 128 4 93d143761420ee8192fe07501919e4e7\n\
";

#[test]
fn tags_of_the_reference_tests_of_version_0x10(rt: HostRuntime) {
    assert!(rt; right_rows(rt.alloc(), 0x10, b"password", b"somesalt", KNOWN) == 2);
}

#[test]
fn tags_of_version_0x10(rt: HostRuntime) {
    assert!(rt; right_rows(rt.alloc(), 0x10, b"password", b"somesalt", ROWS) == 36);
}
