use crate::tests::calls::{all_forged, all_hold, all_leave, all_write, all_wrong};
use crate::tests::content::{Content, STATEMENT, elements};
use crate::tests::row::{Forgery, RUN, Row, forgeries, rows};
use std::test::Fail;

// `check` against a source: that it ran with the branches that never ran, that a hash of the file clashes with a block of the source or
// with another one of the file, that it is another program, and in which order the files are read and the answers come.

// That of a loop of a span, whose digest is 0 under constants that are 0 whatever batches of zeros it has.
const ONE_TURN: &str =
    r#"{"digest":"5062ab788fd314fdad007d4348a7dcfc74dc2a09e46fcfd54515ef11ba0806d4","inputs":[1,0],"kernel":[],"outputs":[0,0,0,0,0,0,0,0,0,0,0,0,0,0,0,0]}"#;

const LOOP: &str = "begin while.true end end";

// Programs that are run and then checked against their sources: a loop and a branch that never ran, a call of the kernel, and a dynamic
// block of which one target never ran.
static RUNS: [Forgery; 4] = forgeries! {
    RUN {z, s = "begin while.true push.1 end end", i} => 0 "cycles 2\noutputs 0 0 0 0 0 0 0 0 0 0 0 0 0 0 0 0\n",
        b"check z t u --evidence e --source s" {e = "ran\ncycles 2\ntape\nloop\nspan 1\nbatch 69 1 0 0 0 0 0 0\n"} => 0 "accepted ran\n";
    RUN {z, s = "begin if.true neg else while.true push.1 end end end", i = r#"{"advice":[],"stack":[1,5]}"#}
        => 0 "cycles 5\noutputs 18446744069414584316 0 0 0 0 0 0 0 0 0 0 0 0 0 0 0\n",
        b"check z t u --source=s --pieces=2 --evidence=e" {e = "ran\ncycles 5\ntape\nsplit\nspan 1\nbatch 2 0 0 0 0 0 0 0\nloop\nspan 1\n\
                batch 69 1 0 0 0 0 0 0\n"} => 0 "accepted ran\n";
    b"run z s i --out t --statement u --kernel k" {z, s = "begin syscall.k end", i, k = "export.k end"}
        => 0 "cycles 5\noutputs 0 0 0 0 0 0 0 0 0 0 0 0 0 0 0 0\n",
        b"check z t u --evidence e --source s --kernel k" {e = "ran\ncycles 5\ntape\nsyscall\nspan 1\nbatch 0 0 0 0 0 0 0 0\n"} => 0 "accepted ran\n";
    RUN {z, s = "proc.a end proc.b neg end begin procref.b procref.a push.1 while.true dynexec dropw adv_push.1 end end", i = r#"{"advice":[0],"stack":[]}"#}
        => 0 "cycles 31\noutputs 11946319283377353309 4537713341667110058 17753639038521013725 8466589406986777384 0 0 0 0 0 0 0 0 0 0 0 0 0 0 0 0\n",
        b"check z t u --evidence e --source s" {e = "ran\ncycles 31\ntape 0\njoin\nspan 1\n\
                batch 29503896807367365 8466589406986777384 17753639038521013725 4537713341667110058 11946319283377353309 69 1 0\nloop\njoin\ndyn 2\n\
                span 1\nbatch 2 0 0 0 0 0 0 0\nspan 1\nbatch 0 0 0 0 0 0 0 0\nspan 1\nbatch 17539192235 0 0 0 0 0 0 0\n"} => 0 "accepted ran\n";
};

// A loop of one turn, whose body has two batches of zeros where the source has one: its hash is that of the source's second block.
static CLASH: [Row; 1] = rows! {
    b"check z t u --evidence e --source m" {z, t: Built([8, 44, 24, 0, 0, 0, 0], elements! {
        1 [1073741824] 12 [1 0 0 1] 30 [1] 46 [16]
        65 [1 1073741824] 73 [1 1 0 0 1 0 0 1] 111 [16] 115 [1]
        130 [2 1073741824] 138 [9] 154 [1] 176 [16 0 0 9 2]
        195 [3 1073741824] 203 [9 0 1 1 1 0 0 1] 241 [16 0 0 9 2]
        260 [4 1073741824] 268 [9] 284 [1] 306 [16 0 0 17 2]
        325 [5 1073741824] 333 [9 0 0 1 1 0 0 1] 346 [1] 371 [16 0 0 17 2]
        390 [6 1073741824] 398 [1 0 0 1 1 0 0 1 5792380605049279741 12466101496496774396 8420651625251590101 4978147822542522068 1] 436 [16] 440 [1]
        455 [7 1073741824] 464 [1 1 1 1 0 0 1] 501 [16]
        523 [729 0 972 0 999 0 1008 0 1017 0 1020 0 1021 1 1022 1 1023 0 3210 0 5397 0 7584 0 9771 0 11958 0 14145 0 16332 0 18519 0 20706 0 22893 0 25080
            0 27267 0 29454 0 31641 0 33828 0 36015 0 38202 0 40389 0 42576 0 44763 0 46950 0 49137 0 51324 0 53511 0 55698 0 57885 0 60072 0 62259 0 64446
            0 65175 0 65418 0 65499 0 65526 0 65535]
        612 [72]
        626 [5917394119505332049 1522869313613726270 1292030278070622267 17508390743048125227 17995941663110035615 6682469625037612811 889554170404622355
            15817834820877081415 14115966337630168195 6158711199922656843 3749732088755714754 17270427171477275340]
        641 [4351538175991996337 9652481513490489927 7569578925783073746 803772106344333270 9637762446717678621 4622694216447908065 16414286099412556751
            3556558276683703065 8784757681588310799 9576505422742860602 18378215019618650186 4861265068515619904]
        656 [18076780541531527236 18300369895180896028 618149512567096302 14143518205791539761 16630130717016726306 9093326458834263320 6734055369094001576
            8279830433902146269 8235682648804574814 2981863327184666625 16505369256735358643 16372882790253511546]
        671 [8397509844030605103 17737158543744463513 975464888381392942 12919095105059039441 4342885272389258533 9281725465811433041 12983028760399289019
            5710036598000408109 1398525222493867993 8936818172412822784 14150452721691226341 466720217115813146]
        686 [16629687710903945735 17319711413472181145 903754878823561178 8572036156280327935 11616025814012330251 9563736302578100947 15268965071374718170
            12669795067106444972 1711669805425084608 4304958346948299286 627694068320001043 3335605867812173255]
        701 [10850910602232696463 10587428638114520606 10120176072570495020 14126330708619317156 3822204387410520516 8676835099537385630
            15262648626024135965 5927158077977722429 14290055005981677557 7744816440558567182 11317788542799198411 9640299063098666985]
        716 [9111032107461125610 9649313540890636688 11941707026660627186 15783727744699287520 5792380605049279741 12466101496496774396 8420651625251590101
            4978147822542522068 4461782178195101347 3191475662302772032 2390658751758461483 1157350361083258942]
        835 [1] 849 [1] 864 [1] 879 [1] 894 [1] 909 [1] 924 [1] 939 [1] 954 [1]
    }), u = ONE_TURN, m = LOOP} => 0 "accepted clash file 9 node 2\n";
};

// A file that is accepted is of another program: nothing is written.
static OTHER: [Row; 2] = rows! {
    b"check z t s --evidence e --source m" {z, t, s = STATEMENT, m = "begin neg end"}
        => 14 "other program 0000000000000000000000000000000000000000000000000000000000000000 \
            757f5e352e883328f66198a4898d75dd3ef9323e0e9e6caaa5c9da180b1b325d\n";
    b"check z t s --evidence e --source m" {z, t: Table(&[(195, 4)], 3748), s = STATEMENT, m = "begin neg end"}
        => 1 "refused main row 2 constraint 10 value 1\n";
};

// A source is read behind the statement, and the kernel behind it; it is refused before the table.
static ORDER: [Row; 5] = rows! {
    b"check z t s --evidence e --source m --kernel k" {z, t, s = "{}"} => 10 "malformed s Shape\n";
    b"check z t s --evidence e --source m --kernel k" {z, t, s = STATEMENT} => 6 "missing m\n";
    b"check z t s --evidence e --source m --kernel k" {z, t, s = STATEMENT, m = "begin exec.f end"} => 6 "missing k\n";
    b"check z t s --evidence e --source m" {z, t: Table(&[(195, 4)], 3748), s = STATEMENT, m = "begin exec.f end"}
        => 3 "source m 1 7 UnknownProcedure\n";
    b"check z t s --evidence e --source m" {z, t, s = STATEMENT, m = "begin end"} => 8 "write fault e\n" call 5;
};

// A kernel alone, and evidence under the name of a file that is read.
static WRONG: [&[u8]; 6] = [
    b"check z t s --evidence e --kernel k",
    b"check z t s --evidence m --source m",
    b"check z t s --evidence k --source m --kernel k",
    b"check z t s --evidence t --source m",
    b"check z t s --evidence e --source",
    b"check z t s --source m",
];

#[test]
fn sources_ran(rt: HostRuntime) -> Result<(), Fail> {
    all_forged(&rt, &RUNS)
}

#[test]
fn a_block_of_the_source_clashes(rt: HostRuntime) -> Result<(), Fail> {
    all_write(&rt, &CLASH, "e", &Content::Text("clash file 9 node 2\n"))
}

#[test]
fn other_programs_are_told(rt: HostRuntime) -> Result<(), Fail> {
    all_leave(&rt, &OTHER, &["m"], &["e"])
}

#[test]
fn sources_are_read_behind_the_statement(rt: HostRuntime) -> Result<(), Fail> {
    all_hold(&rt, &ORDER)
}

#[test]
fn kernels_need_a_source(rt: HostRuntime) -> Result<(), Fail> {
    all_wrong(&rt, &WRONG)
}
