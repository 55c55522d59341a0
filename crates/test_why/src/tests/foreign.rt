use crate::tests::content::Content::Text;
use crate::tests::row::{Row, all_hold};
use std::test::Fail;

static IMPORTS: [Row; 4] = [
    (
        Text("use.std::math::u64 begin end"),
        None,
        3,
        "source p 1 1 Unsupported\n\
            use.std::math::u64 begin end\n\
            ^\n\
            there are no imports: the library's procedures are called by their names, as exec.u64_wrapping_add\n",
    ),
    (
        Text("begin use end"),
        None,
        3,
        "source p 1 7 Unsupported\n\
            begin use end\n\
            \x20     ^\n\
            there are no imports: the library's procedures are called by their names, as exec.u64_wrapping_add\n",
    ),
    (
        Text("begin end"),
        Some(Text("use.std::math::u64 export.f end")),
        3,
        "source k 1 1 Unsupported\n\
            use.std::math::u64 export.f end\n\
            ^\n\
            there are no imports, and a kernel has no library: it defines what it uses\n",
    ),
    (
        Text("begin used end"),
        None,
        3,
        "source p 1 7 UnknownInstruction\n\
            begin used end\n\
            \x20     ^\n\
            there is no instruction used\n",
    ),
];

static PATHS: [Row; 12] = [
    (
        Text("begin exec.u64::wrapping_add end"),
        None,
        3,
        "source p 1 7 Syntax\n\
            begin exec.u64::wrapping_add end\n\
            \x20     ^\n\
            names have no path here: the library's procedures are named alone, as exec.u64_wrapping_add\n",
    ),
    (
        Text("begin procref.std::math::u64::eq end"),
        None,
        3,
        "source p 1 7 Syntax\n\
            begin procref.std::math::u64::eq end\n\
            \x20     ^\n\
            names have no path here: the library's procedures are named alone, as procref.u64_eq\n",
    ),
    (
        Text("begin syscall.u64::eq end"),
        None,
        3,
        "source p 1 7 Syntax\n\
            begin syscall.u64::eq end\n\
            \x20     ^\n\
            names have no path here: a procedure is named alone, as syscall.eq\n",
    ),
    (
        Text("begin call.sys::truncate_stack end"),
        None,
        3,
        "source p 1 7 Syntax\n\
            begin call.sys::truncate_stack end\n\
            \x20     ^\n\
            names have no path here, and neither this source nor the library defines a procedure truncate_stack\n",
    ),
    (
        Text("begin end"),
        Some(Text("export.f exec.u64::eq end")),
        3,
        "source k 1 10 Syntax\n\
            export.f exec.u64::eq end\n\
            \x20        ^\n\
            names have no path here, and this kernel defines no procedure eq\n",
    ),
    (
        Text("begin exec.u64::foo end proc.f end"),
        None,
        3,
        "source p 1 7 Syntax\n\
            begin exec.u64::foo end proc.f end\n\
            \x20     ^\n\
            names have no path here, and neither this source nor the library defines a procedure foo\n",
    ),
    (
        Text("begin exec.a::f end proc.f end"),
        None,
        3,
        "source p 1 7 Syntax\n\
            begin exec.a::f end proc.f end\n\
            \x20     ^\n\
            names have no path here: a procedure is named alone, as exec.f\n",
    ),
    (
        Text("begin call.a::u64_eq end"),
        None,
        3,
        "source p 1 7 Syntax\n\
            begin call.a::u64_eq end\n\
            \x20     ^\n\
            names have no path here: a procedure is named alone, as call.u64_eq\n",
    ),
    (
        Text("begin exec.a:b end"),
        None,
        3,
        "source p 1 7 Syntax\n\
            begin exec.a:b end\n\
            \x20     ^\n\
            exec is written exec.name, with a name in lower case\n",
    ),
    (
        Text("begin exec.a:: end"),
        None,
        3,
        "source p 1 7 Syntax\n\
            begin exec.a:: end\n\
            \x20     ^\n\
            exec is written exec.name, with a name in lower case\n",
    ),
    (
        Text("begin push.a::b end"),
        None,
        3,
        "source p 1 7 Syntax\n\
            begin push.a::b end\n\
            \x20     ^\n\
            a::b is no number\n",
    ),
    (
        Text("begin u64::eq end"),
        None,
        3,
        "source p 1 7 UnknownInstruction\n\
            begin u64::eq end\n\
            \x20     ^\n\
            there is no instruction u64::eq\n",
    ),
];

static COMMENTS: [Row; 5] = [
    (
        Text("begin // adds\nadd end"),
        None,
        3,
        "source p 1 7 UnknownInstruction\n\
            begin // adds\n\
            \x20     ^\n\
            a comment begins with # and goes on to the end of its line\n",
    ),
    (
        Text("begin push.1; add end"),
        None,
        3,
        "source p 1 7 Syntax\n\
            begin push.1; add end\n\
            \x20     ^\n\
            instructions are separated by blanks, not by ;, and a comment begins with #\n",
    ),
    (
        Text("begin add; end"),
        None,
        3,
        "source p 1 7 UnknownInstruction\n\
            begin add; end\n\
            \x20     ^\n\
            instructions are separated by blanks, not by ;, and a comment begins with #\n",
    ),
    (
        Text("begin a//b end"),
        None,
        3,
        "source p 1 7 UnknownInstruction\n\
            begin a//b end\n\
            \x20     ^\n\
            there is no instruction a//b\n",
    ),
    (Text("begin add# // adds;\nend"), None, 0, "assembled\n"),
];

static NUMBERS: [Row; 6] = [
    (
        Text("begin 5 end"),
        None,
        3,
        "source p 1 7 UnknownInstruction\n\
            begin 5 end\n\
            \x20     ^\n\
            a number is pushed by push.5, and a parameter stands behind its instruction and a dot\n",
    ),
    (
        Text("begin 0x1F end"),
        None,
        3,
        "source p 1 7 UnknownInstruction\n\
            begin 0x1F end\n\
            \x20     ^\n\
            a number is pushed by push.0x1F, and a parameter stands behind its instruction and a dot\n",
    ),
    (
        Text("begin swap 2 end"),
        None,
        3,
        "source p 1 12 UnknownInstruction\n\
            begin swap 2 end\n\
            \x20          ^\n\
            a number is pushed by push.2, and a parameter stands behind its instruction and a dot\n",
    ),
    (
        Text("begin 5.6 end"),
        None,
        3,
        "source p 1 7 UnknownInstruction\n\
            begin 5.6 end\n\
            \x20     ^\n\
            there is no instruction 5\n",
    ),
    (
        Text("begin -1 end"),
        None,
        3,
        "source p 1 7 UnknownInstruction\n\
            begin -1 end\n\
            \x20     ^\n\
            there is no instruction -1\n",
    ),
    (Text("begin push.5 end"), None, 0, "assembled\n"),
];

static PARAMETERS: [Row; 5] = [
    (
        Text("begin push 1 end"),
        None,
        3,
        "source p 1 7 Syntax\n\
            begin push 1 end\n\
            \x20     ^\n\
            push wants its parameter behind a dot, as push.1\n",
    ),
    (
        Text("begin repeat 3 neg end end"),
        None,
        3,
        "source p 1 7 Syntax\n\
            begin repeat 3 neg end end\n\
            \x20     ^\n\
            repeat wants its parameter behind a dot, as repeat.3\n",
    ),
    (
        Text("begin push add end"),
        None,
        3,
        "source p 1 7 Syntax\n\
            begin push add end\n\
            \x20     ^\n\
            push wants 1 to 16 parameters, not 0\n",
    ),
    (
        Text("begin push.x 1 end"),
        None,
        3,
        "source p 1 7 Syntax\n\
            begin push.x 1 end\n\
            \x20     ^\n\
            x is no number\n",
    ),
    (
        Text("begin push"),
        None,
        3,
        "source p 1 7 Syntax\n\
            begin push\n\
            \x20     ^\n\
            push wants 1 to 16 parameters, not 0\n",
    ),
];

static PROCEDURES: [Row; 8] = [
    (
        Text("proc.foo end begin foo end"),
        None,
        3,
        "source p 1 20 UnknownInstruction\n\
            proc.foo end begin foo end\n\
            \x20                  ^\n\
            foo is a procedure: it is run by exec.foo or call.foo\n",
    ),
    (
        Text("proc.a foo end proc.foo end begin end"),
        None,
        3,
        "source p 1 8 UnknownInstruction\n\
            proc.a foo end proc.foo end begin end\n\
            \x20      ^\n\
            foo is a procedure: it is run by exec.foo or call.foo\n",
    ),
    (
        Text("begin u64_eq end"),
        None,
        3,
        "source p 1 7 UnknownInstruction\n\
            begin u64_eq end\n\
            \x20     ^\n\
            u64_eq is a procedure: it is run by exec.u64_eq or call.u64_eq\n",
    ),
    (
        Text("begin end"),
        Some(Text("export.f foo end proc.foo end")),
        3,
        "source k 1 10 UnknownInstruction\n\
            export.f foo end proc.foo end\n\
            \x20        ^\n\
            foo is a procedure: it is run by exec.foo\n",
    ),
    (
        Text("begin end"),
        Some(Text("export.f u64_eq end")),
        3,
        "source k 1 10 UnknownInstruction\n\
            export.f u64_eq end\n\
            \x20        ^\n\
            there is no instruction u64_eq\n",
    ),
    (
        Text("proc.foo end begin fo end"),
        None,
        3,
        "source p 1 20 UnknownInstruction\n\
            proc.foo end begin fo end\n\
            \x20                  ^\n\
            there is no instruction fo\n",
    ),
    (
        Text("begin .5 end proc.F end"),
        None,
        3,
        "source p 1 7 UnknownInstruction\n\
            begin .5 end proc.F end\n\
            \x20     ^\n\
            there is no instruction \n",
    ),
    (Text("proc.add end begin add end"), None, 0, "assembled\n"),
];

static HEADERS: [Row; 8] = [
    (
        Text("proc f add end begin end"),
        None,
        3,
        "source p 1 1 Syntax\n\
            proc f add end begin end\n\
            ^\n\
            proc is written proc.name, as proc.f\n",
    ),
    (
        Text("begin end"),
        Some(Text("export f end")),
        3,
        "source k 1 1 Syntax\n\
            export f end\n\
            ^\n\
            export is written export.name, as export.f\n",
    ),
    (
        Text("proc F add end begin end"),
        None,
        3,
        "source p 1 1 Syntax\n\
            proc F add end begin end\n\
            ^\n\
            proc is written proc.name or with .n behind, with a name in lower case and a number of locals\n",
    ),
    (
        Text("proc f.1 add end begin end"),
        None,
        3,
        "source p 1 1 Syntax\n\
            proc f.1 add end begin end\n\
            ^\n\
            proc is written proc.name, as proc.f.1\n",
    ),
    (
        Text("proc"),
        None,
        3,
        "source p 1 1 Syntax\n\
            proc\n\
            ^\n\
            proc is written proc.name or with .n behind, with a name in lower case and a number of locals\n",
    ),
    (
        Text("pub proc f add end begin end"),
        None,
        3,
        "source p 1 1 UnknownInstruction\n\
            pub proc f add end begin end\n\
            ^\n\
            there is no pub: a procedure is proc.name, and only a kernel has export\n",
    ),
    (
        Text("begin end"),
        Some(Text("pub proc f add end")),
        3,
        "source k 1 1 UnknownInstruction\n\
            pub proc f add end\n\
            ^\n\
            there is no pub: a procedure is proc.name, and one that programs may reach is export.name\n",
    ),
    (
        Text("proc.pub end begin pub end"),
        None,
        3,
        "source p 1 20 UnknownInstruction\n\
            proc.pub end begin pub end\n\
            \x20                  ^\n\
            pub is a procedure: it is run by exec.pub or call.pub\n",
    ),
];

static PARTS: [Row; 9] = [
    (
        Text("begin push.[1,2,3,4] end"),
        None,
        3,
        "source p 1 7 Syntax\n\
            begin push.[1,2,3,4] end\n\
            \x20     ^\n\
            a word is pushed as four numbers, as push.1.2.3.4\n",
    ),
    (
        Text("begin push.1.[2 end"),
        None,
        3,
        "source p 1 7 Syntax\n\
            begin push.1.[2 end\n\
            \x20     ^\n\
            a word is pushed as four numbers, as push.1.2.3.4\n",
    ),
    (
        Text("begin neg.[1] end"),
        None,
        3,
        "source p 1 7 Syntax\n\
            begin neg.[1] end\n\
            \x20     ^\n\
            a word is pushed as four numbers, as push.1.2.3.4\n",
    ),
    (
        Text("begin push.1[ end"),
        None,
        3,
        "source p 1 7 Syntax\n\
            begin push.1[ end\n\
            \x20     ^\n\
            1[ is no number\n",
    ),
    (
        Text("begin push.1 assert.err=5 end"),
        None,
        3,
        "source p 1 14 Syntax\n\
            begin push.1 assert.err=5 end\n\
            \x20            ^\n\
            there are no error codes: a trap tells its cause and its clock\n",
    ),
    (
        Text("begin push.1 assert.err.5 end"),
        None,
        3,
        "source p 1 14 Syntax\n\
            begin push.1 assert.err.5 end\n\
            \x20            ^\n\
            there are no error codes: a trap tells its cause and its clock\n",
    ),
    (
        Text("begin u32assert.err=A end"),
        None,
        3,
        "source p 1 7 Syntax\n\
            begin u32assert.err=A end\n\
            \x20     ^\n\
            there are no error codes: a trap tells its cause and its clock\n",
    ),
    (
        Text("begin assert.errs end"),
        None,
        3,
        "source p 1 7 Syntax\n\
            begin assert.errs end\n\
            \x20     ^\n\
            assert wants no parameter, not 1\n",
    ),
    (
        Text("begin assert.5 end"),
        None,
        3,
        "source p 1 7 Syntax\n\
            begin assert.5 end\n\
            \x20     ^\n\
            assert wants no parameter, not 1\n",
    ),
];

static ARITHMETIC: [Row; 5] = [
    (
        Text("begin push.A+1 end"),
        None,
        3,
        "source p 1 7 Syntax\n\
            begin push.A+1 end\n\
            \x20     ^\n\
            A+1 is no number: a parameter is one number or one constant, without arithmetic\n",
    ),
    (
        Text("const.A=2 begin push.1.A*2 end"),
        None,
        3,
        "source p 1 17 Syntax\n\
            const.A=2 begin push.1.A*2 end\n\
            \x20               ^\n\
            A*2 is no number: a parameter is one number or one constant, without arithmetic\n",
    ),
    (
        Text("begin repeat.8/2 neg end end"),
        None,
        3,
        "source p 1 7 Syntax\n\
            begin repeat.8/2 neg end end\n\
            \x20     ^\n\
            8/2 is no number: a parameter is one number or one constant, without arithmetic\n",
    ),
    (
        Text("begin push.-1 end"),
        None,
        3,
        "source p 1 7 Syntax\n\
            begin push.-1 end\n\
            \x20     ^\n\
            -1 is no number\n",
    ),
    (
        Text("begin dup.A-1 end"),
        None,
        3,
        "source p 1 7 Syntax\n\
            begin dup.A-1 end\n\
            \x20     ^\n\
            A-1 is no number, and no constant may stand here\n",
    ),
];

static WORDS: [Row; 5] = [
    (
        Text("begin push.0x0123456789abcdefFEDCBA98765432100123456789abcdefFEDCBA9876543210 end"),
        None,
        3,
        "source p 1 7 Syntax\n\
            begin push.0x0123456789abcdefFEDCBA98765432100123456789abcdefFEDCBA9876543210 end\n\
            \x20     ^\n\
            a word is pushed as four numbers, as push.1.2.3.4\n",
    ),
    (
        Text("begin push.1.0x0000000000000001000000000000000200000000000000030000000000000004 end"),
        None,
        3,
        "source p 1 7 Syntax\n\
            begin push.1.0x0000000000000001000000000000000200000000000000030000000000000004 end\n\
            \x20     ^\n\
            a word is pushed as four numbers, as push.1.2.3.4\n",
    ),
    (
        Text("begin push.0x000000000000000100000000000000020000000000000003000000000000000 end"),
        None,
        3,
        "source p 1 7 Syntax\n\
            begin push.0x000000000000000100000000000000020000000000000003000000000000000 end\n\
            \x20     ^\n\
            0x000000000000000100000000000000020000000000000003000000000000000 is no number\n",
    ),
    (
        Text("begin push.0x000000000000000100000000000000020000000000000003000000000000000g end"),
        None,
        3,
        "source p 1 7 Syntax\n\
            begin push.0x000000000000000100000000000000020000000000000003000000000000000g end\n\
            \x20     ^\n\
            0x000000000000000100000000000000020000000000000003000000000000000g is no number\n",
    ),
    (
        Text("begin add.0x0000000000000001000000000000000200000000000000030000000000000004 end"),
        None,
        3,
        "source p 1 7 Syntax\n\
            begin add.0x0000000000000001000000000000000200000000000000030000000000000004 end\n\
            \x20     ^\n\
            0x0000000000000001000000000000000200000000000000030000000000000004 is no number\n",
    ),
];

static CONSTANTS: [Row; 10] = [
    (
        Text("const.A=2 const.B=A+1 begin end"),
        None,
        3,
        "source p 1 11 Syntax\n\
            const.A=2 const.B=A+1 begin end\n\
            \x20         ^\n\
            a constant is one number, without arithmetic and without another constant\n",
    ),
    (
        Text("const.A=2*3 begin end"),
        None,
        3,
        "source p 1 1 Syntax\n\
            const.A=2*3 begin end\n\
            ^\n\
            a constant is one number, without arithmetic and without another constant\n",
    ),
    (
        Text("const.A=-1 begin end"),
        None,
        3,
        "source p 1 1 Syntax\n\
            const.A=-1 begin end\n\
            ^\n\
            a constant is one number, without arithmetic and without another constant\n",
    ),
    (
        Text("const.A=(1) begin end"),
        None,
        3,
        "source p 1 1 Syntax\n\
            const.A=(1) begin end\n\
            ^\n\
            a constant is one number, without arithmetic and without another constant\n",
    ),
    (
        Text("const.A=4/2 begin end"),
        None,
        3,
        "source p 1 1 Syntax\n\
            const.A=4/2 begin end\n\
            ^\n\
            a constant is one number, without arithmetic and without another constant\n",
    ),
    (
        Text("const.A=2 const.B=A begin end"),
        None,
        3,
        "source p 1 11 Syntax\n\
            const.A=2 const.B=A begin end\n\
            \x20         ^\n\
            a constant is one number, without arithmetic and without another constant\n",
    ),
    (
        Text("const.A=1=B begin end"),
        None,
        3,
        "source p 1 1 Syntax\n\
            const.A=1=B begin end\n\
            ^\n\
            const is written const.NAME=v, with a name in upper case and a number\n",
    ),
    (
        Text("const.A= begin end"),
        None,
        3,
        "source p 1 1 Syntax\n\
            const.A= begin end\n\
            ^\n\
            const is written const.NAME=v, with a name in upper case and a number\n",
    ),
    (
        Text("const.A=0xG begin end"),
        None,
        3,
        "source p 1 1 Syntax\n\
            const.A=0xG begin end\n\
            ^\n\
            const is written const.NAME=v, with a name in upper case and a number\n",
    ),
    (
        Text("const A=1 begin end"),
        None,
        3,
        "source p 1 1 Syntax\n\
            const A=1 begin end\n\
            ^\n\
            const is written const.NAME=v, with a name in upper case and a number\n",
    ),
];

static BRANCHES: [Row; 3] = [
    (
        Text("begin if.false end end"),
        None,
        3,
        "source p 1 7 Syntax\n\
            begin if.false end end\n\
            \x20     ^\n\
            there is no if.false: its body stands behind the else of an if.true\n",
    ),
    (
        Text("begin while.false end end"),
        None,
        3,
        "source p 1 7 Syntax\n\
            begin while.false end end\n\
            \x20     ^\n\
            while is written while.true\n",
    ),
    (
        Text("begin if.false.1 end end"),
        None,
        3,
        "source p 1 7 Syntax\n\
            begin if.false.1 end end\n\
            \x20     ^\n\
            if is written if.true\n",
    ),
];

#[test]
fn imports_are_told(rt: HostRuntime) -> Result<(), Fail> {
    all_hold(&rt, &IMPORTS)
}

#[test]
fn paths_are_told(rt: HostRuntime) -> Result<(), Fail> {
    all_hold(&rt, &PATHS)
}

#[test]
fn comments_are_told(rt: HostRuntime) -> Result<(), Fail> {
    all_hold(&rt, &COMMENTS)
}

#[test]
fn numbers_alone_are_told(rt: HostRuntime) -> Result<(), Fail> {
    all_hold(&rt, &NUMBERS)
}

#[test]
fn parameters_apart_are_told(rt: HostRuntime) -> Result<(), Fail> {
    all_hold(&rt, &PARAMETERS)
}

#[test]
fn procedures_alone_are_told(rt: HostRuntime) -> Result<(), Fail> {
    all_hold(&rt, &PROCEDURES)
}

#[test]
fn headers_apart_are_told(rt: HostRuntime) -> Result<(), Fail> {
    all_hold(&rt, &HEADERS)
}

#[test]
fn brackets_and_error_codes_are_told(rt: HostRuntime) -> Result<(), Fail> {
    all_hold(&rt, &PARTS)
}

#[test]
fn arithmetic_is_told(rt: HostRuntime) -> Result<(), Fail> {
    all_hold(&rt, &ARITHMETIC)
}

#[test]
fn words_as_one_number_are_told(rt: HostRuntime) -> Result<(), Fail> {
    all_hold(&rt, &WORDS)
}

#[test]
fn expressions_are_told(rt: HostRuntime) -> Result<(), Fail> {
    all_hold(&rt, &CONSTANTS)
}

#[test]
fn branches_on_false_are_told(rt: HostRuntime) -> Result<(), Fail> {
    all_hold(&rt, &BRANCHES)
}
