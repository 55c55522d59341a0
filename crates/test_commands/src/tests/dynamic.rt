use crate::tests::calls::{all_forged, all_hold, all_leave};
use crate::tests::row::{CHECK, Forgery, RUN, Row, forgeries, rows};
use std::test::Fail;

// Dynamic blocks: one that runs its only target, and a loop whose two turns run two targets of its block, so that the evidence keeps
// both, in the order in which they ran. Without constants a span of one NOOP has the digest of four zeros. Each is run and checked.
static RUNS: [Forgery; 2] = forgeries! {
    RUN {z, s = "proc.f end begin procref.f dynexec dropw end", i} => 0 "cycles 21\noutputs 0 0 0 0 0 0 0 0 0 0 0 0 0 0 0 0\n",
        CHECK {e = "run\ncycles 21\ntape\njoin\njoin\nspan 1\nbatch 109910580 0 0 0 0 0 0 0\ndyn 1\nspan 1\nbatch 0 0 0 0 0 0 0 0\nspan 1\n\
                batch 90887595 0 0 0 0 0 0 0\n"} => 0 "accepted run\n";
    RUN {z, s = "proc.a end proc.b neg end begin procref.b procref.a push.1 while.true dynexec dropw adv_push.1 end end",
        i = r#"{"advice":[1,0],"stack":[]}"#} => 0 "cycles 46\noutputs 0 0 0 0 0 0 0 0 0 0 0 0 0 0 0 0\n",
        CHECK {e = "run\ncycles 46\ntape 1 0\njoin\nspan 1\n\
                batch 29503896807367365 8466589406986777384 17753639038521013725 4537713341667110058 11946319283377353309 69 1 0\nloop\njoin\ndyn 2\n\
                span 1\nbatch 0 0 0 0 0 0 0 0\nspan 1\nbatch 2 0 0 0 0 0 0 0\nspan 1\nbatch 17539192235 0 0 0 0 0 0 0\n"} => 0 "accepted run\n";
};

// The first of these runs, but that the dynamic block runs a span of NEG in place of the one whose digest is on the stack: the batch and
// the operation, the digest at the span's END, and the seven rounds of its hash. On a stack of zeros NEG leaves what NOOP leaves.
static ANOTHER_TARGET: [Forgery; 1] = forgeries! {
    RUN {z, s = "proc.f end begin procref.f dynexec dropw end", i} => 0 "cycles 21\noutputs 0 0 0 0 0 0 0 0 0 0 0 0 0 0 0 0\n"
        changed [
            Elements(601, &[2]), Elements(660, &[1]), Elements(666, &[2]),
            Elements(731, &[8466589406986777384, 17753639038521013725, 4537713341667110058, 11946319283377353309]), Elements(2005, &[2]),
            Elements(2016, &[17080590708072331651, 15476445949199812344, 6628648777901452422, 3751238961261317286, 11315312190020405037,
                16945405126909775135, 11246944894465399888, 15359764435448138359, 6846948403539644694, 10785310545225302586, 3001432087998611195,
                9103072653268836157]),
            Elements(2031, &[17687938993967742431, 5634601547604569261, 14482502750336777247, 3707742962830391294, 11028725193644354463,
                9433638115979044209, 9245699037661301418, 14102773675580873758, 18062742684609954425, 968361949134087252, 13933851337524374437,
                17153536443674155372]),
            Elements(2046, &[7768972899122317540, 7119806726642359856, 13777450794306463997, 502132792820320201, 4607620068069376961, 3091628164695961173,
                6029380638037554647, 3536405420375117562, 8451145321374100346, 8385610013325759742, 9965776882021645788, 3303226307369224465]),
            Elements(2061, &[10496436098908458589, 8079211493414166421, 11285974715117685228, 17142779559297552436, 12278118670563330636,
                1051915361866960044, 10094645345109337265, 5757140834331935724, 16142521989379542972, 11121240394947376660, 7844755489978310359,
                11824267744973036316]),
            Elements(2076, &[13442230670881319212, 2579483733760914518, 12902894655643799480, 13272174706840793160, 4067969997204840872,
                11298114566831789340, 15097989282480646479, 2884715171141256996, 8976621818961834289, 7597871723421636074, 14699406361408744610,
                47546383484030128]),
            Elements(2091, &[11488144054657761729, 11074983722236263032, 1805014757537289443, 15161291350423767827, 5418190814785010106,
                14628583611560523778, 2442036305174379290, 106172344094736681, 11514033461851617797, 16308658743829895831, 5801148412264948610,
                10132727564579410546]),
            Elements(2106, &[16485757941210263064, 6727731434837446046, 1056967736108678544, 15625370949719407090, 8466589406986777384,
                17753639038521013725, 4537713341667110058, 11946319283377353309, 14693748206669587094, 14068965041651260188, 14485749493504191196,
                2685986181257445082])
        ],
        CHECK {} => 1 "refused bus children tuple 25 0 0 0 0 0 asked 0 given 1\n";
};

// No target at all, and none of the digest on the stack.
static TRAPS: [Row; 2] = rows! {
    RUN {z, s = "begin dynexec end", i} => 4 "trap 0 UnknownTarget\n";
    RUN {z, s = "proc.f end begin procref.f add dynexec end", i = r#"{"advice":[],"stack":[7]}"#} => 4 "trap 8 UnknownTarget\n";
};

static REFUSED: [Row; 1] = rows! {
    b"assemble z s" {z, s = "proc.f dynexec end begin procref.f end"} => 3 "source s 1 8 Recursive\n";
};

#[test]
fn dynamic_blocks_are_accepted(rt: HostRuntime) -> Result<(), Fail> {
    all_forged(&rt, &RUNS)
}

#[test]
fn another_target_is_refused(rt: HostRuntime) -> Result<(), Fail> {
    all_forged(&rt, &ANOTHER_TARGET)
}

#[test]
fn unknown_targets_trap(rt: HostRuntime) -> Result<(), Fail> {
    all_leave(&rt, &TRAPS, &[], &["t", "u"])
}

#[test]
fn dynexec_in_its_own_target_is_refused(rt: HostRuntime) -> Result<(), Fail> {
    all_hold(&rt, &REFUSED)
}
