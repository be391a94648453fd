//! What the events of Go's tests show, what they are nested in, and when spans close.

ghost use Rattle.std.specs.Prelude.{◌≡◌, [], ℕ, List, None, Option, flat_map, true};
ghost use Rattle.json.specs.Json.{Json};
ghost use Rattle.tracing_tree_base.specs.declared.context.Moment.{Moment};
ghost use Rattle.ttree_go_test.specs.Closing.{ClosesAll, is_end};
ghost use Rattle.ttree_go_test.specs.GoTest.{go_ends, go_takes, moved, nothing_run, output_kind, printed, ran, tests_of};
ghost use Rattle.ttree_go_test.specs.Names.{named};
ghost use Rattle.ttree_go_test.specs.Nesting.{PlacesCalls};
ghost use Rattle.ttree_go_test.specs.Printed.{ShowsEachLine, build_prints, plain_line, texts_added};
ghost use Rattle.ttree_source.specs.Source.{calls_of, interpret};

/// Over a run of Go's tests, each line that a test or a package prints is one event, unless it is
/// blank or only frames. The lines of a test, joined, are the strings that it prints without its
/// frames. Each string of a build is one event, without a first line that names the package, and so
/// is each line that isn't JSON. All other events are ends of tests and packages.
pub fn each_printed_line_is_one_event()
    ensures { (next : ℕ) (moment : Moment) (lines : List (List ℕ)) →
        ShowsEachLine (texts_added (nothing_run next moment) lines) (flat_map build_prints lines)
        (flat_map plain_line lines) (calls_of go_takes go_ends (nothing_run next moment) lines) }
{}

/// After any lines, what a test prints is in its own span. That span opens in the nearest running
/// test that it is nested in and that has a span, otherwise in the package. What a test prints that
/// doesn't run is printed by the nearest running test that it is nested in, or by the package.
pub fn tests_print_in_their_own_spans()
    ensures { (next : ℕ) (moment : Moment) (before : List (List ℕ)) (value : Json)
        (path test text : List ℕ) →
        let s = (interpret go_takes (nothing_run next moment) before).source in
        PlacesCalls path test s (printed (output_kind value) path test text s) }
{}

/// After any lines, a test that starts opens the span of the nearest running test that it is nested
/// in, or of the package. That span opens in its own nearest running test in the same way.
pub fn tests_start_in_the_nearest_running_test()
    ensures { (next : ℕ) (moment : Moment) (before : List (List ℕ)) (path test : List ℕ) →
        let s = (interpret go_takes (nothing_run next moment) before).source in
        named test (tests_of path s) ≡ None → PlacesCalls path test s (ran path test s) }
{}

/// After any lines, the end of a package closes its span and those of its running tests, each after
/// the spans below it.
pub fn packages_close_inner_spans_first()
    ensures { (next : ℕ) (moment : Moment) (before : List (List ℕ)) (action path : List ℕ)
        (elapsed : Option (List ℕ)) → is_end action ≡ true →
        let s = (interpret go_takes (nothing_run next moment) before).source in
        ClosesAll (tests_of path s) (moved action path [] elapsed s).calls }
{}

/// After any lines and the end of a package, no test of it runs.
pub fn ended_packages_run_no_test()
    ensures { (next : ℕ) (moment : Moment) (before : List (List ℕ)) (action path : List ℕ)
        (elapsed : Option (List ℕ)) → is_end action ≡ true →
        let s = (interpret go_takes (nothing_run next moment) before).source in
        tests_of path (moved action path [] elapsed s) ≡ [] }
{}
