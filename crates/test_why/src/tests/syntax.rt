use crate::tests::content::Content::{Missing, Text};
use crate::tests::row::{Row, all_hold};
use std::test::Fail;

static ENDS: [Row; 6] = [
    (Text("begin end"), None, 0, "assembled\n"),
    (Missing, None, 6, "missing p\n"),
    (Text("begin end"), Some(Missing), 6, "missing k\n"),
    (
        Text("proc.f end"),
        None,
        3,
        "source p 1 11 Syntax\n\
            proc.f end\n\
            \x20         ^\n\
            a program has a body between begin and end\n",
    ),
    (
        Text("begin\n  if.true\n    add\n"),
        None,
        3,
        "source p 4 1 Syntax\n\
            \n\
            ^\n\
            the block opened by if.true at 2:3 is not closed\n",
    ),
    (
        Text("begin if.true else"),
        None,
        3,
        "source p 1 19 Syntax\n\
            begin if.true else\n\
            \x20                 ^\n\
            the block opened by else at 1:15 is not closed\n",
    ),
];

static PLACES: [Row; 6] = [
    (
        Text("add"),
        None,
        3,
        "source p 1 1 Syntax\n\
            add\n\
            ^\n\
            add may not stand outside of begin and of procedures\n",
    ),
    (
        Text("export.f end begin end"),
        None,
        3,
        "source p 1 1 Syntax\n\
            export.f end begin end\n\
            ^\n\
            only a kernel has export: a kernel is named behind --kernel, and a program's procedure is proc.f\n",
    ),
    (
        Text("export.counter.2 end begin end"),
        None,
        3,
        "source p 1 1 Syntax\n\
            export.counter.2 end begin end\n\
            ^\n\
            only a kernel has export: a kernel is named behind --kernel, and a program's procedure is proc.counter\n",
    ),
    (
        Text("begin end add"),
        None,
        3,
        "source p 1 11 Syntax\n\
            begin end add\n\
            \x20         ^\n\
            nothing may stand behind the end of begin\n",
    ),
    (
        Text("begin else end"),
        None,
        3,
        "source p 1 7 Syntax\n\
            begin else end\n\
            \x20     ^\n\
            else may not stand in the block opened by begin at 1:1\n",
    ),
    (
        Text("begin while.true proc.f"),
        None,
        3,
        "source p 1 18 Syntax\n\
            begin while.true proc.f\n\
            \x20                ^\n\
            proc may not stand in the block opened by while.true at 1:7\n",
    ),
];

static FORMS: [Row; 6] = [
    (
        Text("const.a=1 begin end"),
        None,
        3,
        "source p 1 1 Syntax\n\
            const.a=1 begin end\n\
            ^\n\
            const is written const.NAME=v, with a name in upper case and a number\n",
    ),
    (
        Text("proc.F end"),
        None,
        3,
        "source p 1 1 Syntax\n\
            proc.F end\n\
            ^\n\
            proc is written proc.name or with .n behind, with a name in lower case and a number of locals\n",
    ),
    (
        Text("begin if end end"),
        None,
        3,
        "source p 1 7 Syntax\n\
            begin if end end\n\
            \x20     ^\n\
            if is written if.true\n",
    ),
    (
        Text("begin exec end"),
        None,
        3,
        "source p 1 7 Syntax\n\
            begin exec end\n\
            \x20     ^\n\
            exec is written exec.name, with a name in lower case\n",
    ),
    (
        Text("begin end.1"),
        None,
        3,
        "source p 1 7 Syntax\n\
            begin end.1\n\
            \x20     ^\n\
            end is written end alone\n",
    ),
    (
        Text("begin repeat end end"),
        None,
        3,
        "source p 1 7 Syntax\n\
            begin repeat end end\n\
            \x20     ^\n\
            repeat wants 1 parameter, not 0\n",
    ),
];

static PARAMETERS: [Row; 6] = [
    (
        Text("begin push.A end const.A=1"),
        None,
        3,
        "source p 1 7 Syntax\n\
            begin push.A end const.A=1\n\
            \x20     ^\n\
            A is not defined: constants are defined before their first use\n",
    ),
    (
        Text("const.N=1 begin dup.N end"),
        None,
        3,
        "source p 1 17 Syntax\n\
            const.N=1 begin dup.N end\n\
            \x20               ^\n\
            N is no number, and no constant may stand here\n",
    ),
    (
        Text("begin push.1.x end"),
        None,
        3,
        "source p 1 7 Syntax\n\
            begin push.1.x end\n\
            \x20     ^\n\
            x is no number\n",
    ),
    (
        Text("begin swap.1.2 end"),
        None,
        3,
        "source p 1 7 Syntax\n\
            begin swap.1.2 end\n\
            \x20     ^\n\
            swap wants 0 to 1 parameters, not 2\n",
    ),
    (
        Text("begin movup end"),
        None,
        3,
        "source p 1 7 Syntax\n\
            begin movup end\n\
            \x20     ^\n\
            movup wants 1 parameter, not 0\n",
    ),
    (
        Text("begin neg.1 end"),
        None,
        3,
        "source p 1 7 Syntax\n\
            begin neg.1 end\n\
            \x20     ^\n\
            neg wants no parameter, not 1\n",
    ),
];

#[test]
fn sources_end_early(rt: HostRuntime) -> Result<(), Fail> {
    all_hold(&rt, &ENDS)
}

#[test]
fn tokens_do_not_fit(rt: HostRuntime) -> Result<(), Fail> {
    all_hold(&rt, &PLACES)
}

#[test]
fn tokens_have_forms(rt: HostRuntime) -> Result<(), Fail> {
    all_hold(&rt, &FORMS)
}

#[test]
fn parameters_are_told(rt: HostRuntime) -> Result<(), Fail> {
    all_hold(&rt, &PARAMETERS)
}
