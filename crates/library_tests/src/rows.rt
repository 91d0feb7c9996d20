//! Holds projects, each with all that its run writes.
use meson::Status;

/// Holds a project in `/s`, and how its run in `/s/build` ends.
#[derive(Clone, Copy)]
pub struct Row {
    pub name: &'static str,
    /// Paths of files, with their texts.
    pub files: &'static [(&'static str, &'static str)],
    pub words: &'static [&'static str],
    pub machine: &'static str,
    pub status: Status,
    /// What the outputs take, as `shown` shows it, in pieces.
    pub events: &'static [&'static str],
}

/// Holds the beginning of `build.ninja`, with its mark.
pub const HEAD: &str = "⟦open build.ninja⟧ninja_required_version = 1.3

rule c_compile
 command = $COMMAND
 description = $DESC
 depfile = $DEPFILE
 deps = gcc

rule ar
 command = $COMMAND
 description = $DESC

rule c_link
 command = $COMMAND
 description = $DESC

rule symlink
 command = $COMMAND
 description = $DESC

rule custom
 command = $COMMAND
 description = $DESC

rule custom_dep
 command = $COMMAND
 description = $DESC
 depfile = $DEPFILE

";

/// Holds the edges of a program `prog` of `main.c`, and the end of the file.
pub const PROG: &str = "build prog.p/main.c.o: c_compile ../main.c
 COMMAND = cc -I. -I.. -Wall -O0 -g -MD -MQ prog.p/main.c.o -MF prog.p/main.c.o.d -o prog.p/main.c.o -c ../main.c
 DESC = Compiling C object prog.p/main.c.o
 DEPFILE = prog.p/main.c.o.d

build prog: c_link prog.p/main.c.o
 COMMAND = cc -o prog prog.p/main.c.o
 DESC = Linking target prog

build all: phony prog

default all
";

// The end of `build.ninja` where no target is built by default.
const NO_DEFAULT: &str = "build all: phony

default all
";

// The begin of the document, up to the last of the options that are built in, with the mark of the end of `build.ninja`.
const OPTIONS: &str = "⟦close build.ninja⟧⟦open meson-info/introspect.json⟧{\"buildoptions\":[\
{\"name\":\"prefix\",\"type\":\"string\",\"value\":\"/usr/local\"},\
{\"name\":\"bindir\",\"type\":\"string\",\"value\":\"bin\"},\
{\"name\":\"libdir\",\"type\":\"string\",\"value\":\"lib\"},\
{\"name\":\"includedir\",\"type\":\"string\",\"value\":\"include\"},\
{\"name\":\"datadir\",\"type\":\"string\",\"value\":\"share\"},\
{\"name\":\"mandir\",\"type\":\"string\",\"value\":\"share/man\"},\
{\"name\":\"sysconfdir\",\"type\":\"string\",\"value\":\"etc\"},\
{\"name\":\"buildtype\",\"type\":\"combo\",\"value\":\"debug\"},\
{\"name\":\"debug\",\"type\":\"boolean\",\"value\":true},\
{\"name\":\"optimization\",\"type\":\"combo\",\"value\":\"0\"},\
{\"name\":\"warning_level\",\"type\":\"combo\",\"value\":\"1\"},\
{\"name\":\"werror\",\"type\":\"boolean\",\"value\":false},\
{\"name\":\"c_std\",\"type\":\"combo\",\"value\":\"none\"},\
{\"name\":\"default_library\",\"type\":\"combo\",\"value\":\"shared\"},\
{\"name\":\"c_args\",\"type\":\"array\",\"value\":[]},\
{\"name\":\"c_link_args\",\"type\":\"array\",\"value\":[]},";

// The last option that is built in, and the begin of the next list.
const AUTO: &str =
    "{\"name\":\"auto_features\",\"type\":\"feature\",\"value\":\"auto\"}],\"buildsystem_files\":";

// What was looked at and is absent, up to the files that are there.
const NO_OPTION_FILE: &str =
    "{\"absent\":[\"meson.options\",\"meson_options.txt\"],\"present\":[\"meson.build\"";

const NO_DEPENDENCY: &str = "]},\"dependencies\":[],";

const PROJECT: &str =
    "\"installed\":{},\"projectinfo\":{\"license\":[],\"name\":\"p\",\"version\":\"undefined\"},\"targets\":[";

const END: &str = "],\"tests\":[]}⟦close meson-info/introspect.json⟧";

/// Declares one program.
pub const PROGRAM: Row = Row {
    name: "a program",
    files: &[
        (
            "meson.build",
            "project('p','c')\nexecutable('prog','main.c')\n",
        ),
        ("main.c", ""),
    ],
    words: &[],
    machine: "",
    status: Status::Done,
    events: &[
        HEAD,
        PROG,
        OPTIONS,
        AUTO,
        NO_OPTION_FILE,
        ",\"main.c\"",
        NO_DEPENDENCY,
        PROJECT,
        "{\"build_by_default\":true,\"defined_in\":\"meson.build\",\
        \"filename\":[\"prog\"],\"installed\":false,\"name\":\"prog\",\"type\":\"executable\"}",
        END,
    ],
};

/// Has a definition file without a statement.
pub const EMPTY: Row = Row {
    name: "an empty file",
    files: &[("meson.build", "")],
    words: &[],
    machine: "",
    status: Status::Fault,
    events: &["⟦fault⟧meson.build:1: ERROR: E13 project call\n"],
};

/// Has a template with a name that has no value. The warning is logged between the bytes around the place of the name.
pub const WARNED: Row = Row {
    name: "a warned template",
    files: &[
        (
            "meson.build",
            "project('p','c')\nconfigure_file(input: 'c.h.in', output: 'c.h', configuration: {'A': true})\n",
        ),
        ("c.h.in", "#mesondefine A\nx@B@y\nz"),
    ],
    words: &[],
    machine: "",
    status: Status::Done,
    events: &[
        "⟦open c.h⟧#define A\nx⟦log⟧WARNING: c.h.in:2: no value for B\n⟦put⟧y\nz⟦close c.h⟧",
        HEAD,
        NO_DEFAULT,
        OPTIONS,
        AUTO,
        NO_OPTION_FILE,
        ",\"c.h.in\"",
        NO_DEPENDENCY,
        PROJECT,
        END,
    ],
};

/// Has a template that is refused in its third line. The bytes written before stay, the earlier output is closed, and this one is not.
pub const REFUSED: Row = Row {
    name: "a refused template",
    files: &[
        (
            "meson.build",
            "project('p','c')\n\
            configure_file(output: 'a.h', configuration: {'A': 1})\n\
            configure_file(input: 'b.h.in', output: 'b.h', configuration: {})\n",
        ),
        ("b.h.in", "one\ntwo\n#mesondefine A B\n"),
    ],
    words: &[],
    machine: "",
    status: Status::Fault,
    events: &[
        "⟦open a.h⟧/* Generated. Do not edit. */\n#pragma once\n\n#define A 1\n⟦close a.h⟧",
        "⟦open b.h⟧one\ntwo\n⟦fault⟧b.h.in:3: ERROR: E19 template\n",
    ],
};

// The edges of a shared library with a version.
const LIBRARY: &str = "build lib/libfoo.so.1.2.3.p/lib_foo.c.o: c_compile ../lib/foo.c
 COMMAND = cc -Ilib -I../lib -Wall -O0 -g -fPIC -MD -MQ lib/libfoo.so.1.2.3.p/lib_foo.c.o \
-MF lib/libfoo.so.1.2.3.p/lib_foo.c.o.d -o lib/libfoo.so.1.2.3.p/lib_foo.c.o -c ../lib/foo.c
 DESC = Compiling C object lib/libfoo.so.1.2.3.p/lib_foo.c.o
 DEPFILE = lib/libfoo.so.1.2.3.p/lib_foo.c.o.d

build lib/libfoo.so.1.2.3: c_link lib/libfoo.so.1.2.3.p/lib_foo.c.o
 COMMAND = cc -shared -fPIC -Wl,-soname,libfoo.so.1 -o lib/libfoo.so.1.2.3 lib/libfoo.so.1.2.3.p/lib_foo.c.o
 DESC = Linking target lib/libfoo.so.1.2.3

build lib/libfoo.so.1: symlink lib/libfoo.so.1.2.3
 COMMAND = ln -f -s libfoo.so.1.2.3 lib/libfoo.so.1
 DESC = Linking name lib/libfoo.so.1

build lib/libfoo.so: symlink lib/libfoo.so.1.2.3
 COMMAND = ln -f -s libfoo.so.1.2.3 lib/libfoo.so
 DESC = Linking name lib/libfoo.so

";

// The edges of a program that is linked with that library, and the end of the file.
const LINKED: &str = "build app/run.p/app_run.c.o: c_compile ../app/run.c
 COMMAND = cc -Iapp -I../app -Wall -O0 -g -MD -MQ app/run.p/app_run.c.o \
-MF app/run.p/app_run.c.o.d -o app/run.p/app_run.c.o -c ../app/run.c
 DESC = Compiling C object app/run.p/app_run.c.o
 DEPFILE = app/run.p/app_run.c.o.d

build app/run: c_link app/run.p/app_run.c.o | lib/libfoo.so.1.2.3
 COMMAND = cc -o app/run app/run.p/app_run.c.o lib/libfoo.so.1.2.3 '-Wl,-rpath,$$ORIGIN/../lib'
 DESC = Linking target app/run

build all: phony lib/libfoo.so.1.2.3 lib/libfoo.so.1 lib/libfoo.so app/run

default all
";

/// Has two folders, with a shared library and a program that is linked with it.
pub const FOLDERS: Row = Row {
    name: "two folders",
    files: &[
        (
            "meson.build",
            "project('p','c')\nsubdir('lib')\nsubdir('app')\n",
        ),
        (
            "lib/meson.build",
            "foo = shared_library('foo', 'foo.c', version: '1.2.3')\n",
        ),
        ("lib/foo.c", ""),
        (
            "app/meson.build",
            "executable('run', 'run.c', link_with: foo)\n",
        ),
        ("app/run.c", ""),
    ],
    words: &[],
    machine: "",
    status: Status::Done,
    events: &[
        HEAD,
        LIBRARY,
        LINKED,
        OPTIONS,
        AUTO,
        NO_OPTION_FILE,
        ",\"lib/meson.build\",\"lib/foo.c\",\"app/meson.build\",\"app/run.c\"",
        NO_DEPENDENCY,
        PROJECT,
        "{\"build_by_default\":true,\"defined_in\":\"lib/meson.build\",\
        \"filename\":[\"lib/libfoo.so.1.2.3\"],\"installed\":false,\"name\":\"foo\",\"type\":\"shared library\"},",
        "{\"build_by_default\":true,\"defined_in\":\"app/meson.build\",\
        \"filename\":[\"app/run\"],\"installed\":false,\"name\":\"run\",\"type\":\"executable\"}",
        END,
    ],
};

/// Has a custom target whose output is what its command prints.
pub const CAPTURED: Row = Row {
    name: "a captured output",
    files: &[
        (
            "meson.build",
            "project('p','c')\n\
            custom_target('g', input: 'g.in', output: 'g.c', command: ['sed', 's/x/y z/', '@INPUT@'], capture: true)\n",
        ),
        ("g.in", ""),
    ],
    words: &[],
    machine: "",
    status: Status::Done,
    events: &[
        HEAD,
        "build g.c: custom ../g.in\n COMMAND = sed 's/x/y z/' ../g.in > g.c\n DESC = Generating g.c\n\n",
        NO_DEFAULT,
        OPTIONS,
        AUTO,
        NO_OPTION_FILE,
        ",\"g.in\"",
        NO_DEPENDENCY,
        PROJECT,
        "{\"build_by_default\":false,\"defined_in\":\"meson.build\",\
        \"filename\":[\"g.c\"],\"installed\":false,\"name\":\"g\",\"type\":\"custom\"}",
        END,
    ],
};

/// Has a dependency that an argument of the command line disables, though the machine file has it.
pub const DISABLED: Row = Row {
    name: "a disabled feature",
    files: &[
        (
            "meson.build",
            "project('p','c')\nmessage(dependency('zlib', required: get_option('z')).found())\n",
        ),
        ("meson.options", "option('z', type: 'feature')\n"),
    ],
    words: &["auto_features=disabled"],
    machine: "[dependency zlib]\n",
    status: Status::Done,
    events: &[
        "⟦log⟧Message: false\n",
        HEAD,
        NO_DEFAULT,
        OPTIONS,
        "{\"name\":\"auto_features\",\"type\":\"feature\",\"value\":\"disabled\"},\
        {\"name\":\"z\",\"type\":\"feature\",\"value\":\"disabled\"}],",
        "\"buildsystem_files\":{\"absent\":[],\"present\":[\"meson.build\",\"meson.options\"]},",
        "\"dependencies\":[{\"found\":false,\"name\":\"zlib\",\"version\":\"unknown\"}],",
        PROJECT,
        END,
    ],
};

/// Lists the projects above, in their order.
pub const ROWS: &[Row] = &[PROGRAM, EMPTY, WARNED, REFUSED, FOLDERS, CAPTURED, DISABLED];
