//! Printing the reports of a profile.

ghost use Rattle.std.specs.Prelude.{◌≡◌, true, Err, length, map, string_bytes, is_some, IfOk, IfErr, IfSome, OnOk};
ghost use Rattle.arc_filter.specs.Cuts.{without_cuts};
ghost use Rattle.elf32_syms.specs.Owners.{IsAscending};
ghost use Rattle.exact_flow.specs.Answers.{IsWideAnswer};
ghost use Rattle.exact_flow.specs.Solution.{exact_flow_in};
ghost use Rattle.exact_flow.specs.Times.{HasTimes};
ghost use Rattle.flat_report.specs.Reports.{Reports};
ghost use Rattle.flat_report.specs.declared.refusal.ReportRefusal.TheVariants.{OutOfMemory};
ghost use Rattle.flat_report.specs.FlatText.{flat_text};
ghost use Rattle.graph_report.specs.GraphText.{graph_text};
ghost use Rattle.command_words.specs.Items.{words_at};
ghost use Rattle.courses.specs.Answer.{chosen_by};
ghost use Rattle.command_reports.specs.Findings.{AreFindings, FitTogether, IsAsked, given_sources};
ghost use Rattle.command_reports.specs.Reporting.{PrintsAll, PrintsExact, PrintsReports, PrintsShown};
ghost use Rattle.command_words.specs.Words.{AreCuts};

use crate::findings::{Findings, findings_of};
use arc_filter::cut;
use command_words::{Selection, Shown, Words};
use courses::Fault;
use courses::refusals::{exact_fault, report_fault};
use elf32_syms::Image;
use exact_flow::{ExactFlow, ExactRefusal, exact};
use flat_report::ReportRefusal;
use gmon_data::Profile;
use graph_report::write_exact;
use host_port::{Host, out_all_of};
use std::alloc::{AllocError, Global};

/// Prints the reports that are asked for, of a profile and by the symbols of a program. The profile is let
/// go as soon as its findings are there.
pub fn print_reports<H: Host>(
    alloc: Global,
    words: &Words<'_>,
    selection: &Selection,
    image: &Image,
    total: Profile,
    host: &mut H,
) -> Result<(), Fault>
    requires ascending { IsAscending image.now.symbols }
    requires cuts { AreCuts words.now selection.now }
    ensures { PrintsReports (chosen_by words.now selection.now) image.now
        total (H.outside host.old) (H.outside host.new) result }
{
    let Ok(hidden) = words.names(alloc, selection.hidden.as_slice()) else {
        return Err(Fault::OutOfMemory);
    };
    let Ok(findings) = chosen_findings(alloc, words, selection, image, total) else {
        return Err(Fault::OutOfMemory);
    };
    let exact = match exact_asked(alloc, selection.exact, &findings) {
        Ok(exact) => exact,
        Err(refusal) => return Err(exact_fault(refusal)),
    };
    match print_all(
        alloc,
        selection.shown,
        image,
        &findings,
        &hidden,
        &exact,
        host,
    ) {
        Ok(()) => Ok(()),
        Err(refusal) => Err(report_fault(refusal)),
    }
}

/// What is found of a profile without the calls that are cut.
fn chosen_findings(
    alloc: Global,
    words: &Words<'_>,
    selection: &Selection,
    image: &Image,
    total: Profile,
) -> Result<Findings, AllocError>
    requires ascending { IsAscending image.now.symbols }
    requires cuts { AreCuts words.now selection.now }
    ensures { IfOk result (λ f. AreFindings image.now
        (without_cuts total image.now.symbols (words_at words.now selection.now.cuts)) f) }
{
    if selection.cuts.as_slice().is_empty() {
        return findings_of(alloc, image, total);
    }
    let cuts = words.names(alloc, selection.cuts.as_slice())?;
    let left = cut(alloc, &total, image.symbols.as_slice(), &cuts)?;
    drop(total);
    findings_of(alloc, image, left)
}

/// The times with nothing rounded, where they are asked for.
fn exact_asked(
    alloc: Global,
    asked: bool,
    findings: &Findings,
) -> Result<Option<ExactFlow>, ExactRefusal>
    requires { length findings.now.shares.of ≡ findings.now.graph.functions }
    ensures found { IfOk result (IsAsked asked findings.now) }
    ensures refused { IfErr result (λ refusal. (asked ≡ true)
        × IsWideAnswer findings.now.graph findings.now.shares.of refusal) }
{
    if !asked {
        return Ok(None);
    }
    let exact = exact(alloc, &findings.graph, &findings.shares)?;
    Ok(Some(exact))
}

/// Prints the reports that are asked for, and then the times with nothing rounded, if they are given.
fn print_all<H: Host>(
    alloc: Global,
    shown: Shown,
    image: &Image,
    findings: &Findings,
    hidden: &[String],
    exact: &Option<ExactFlow>,
    host: &mut H,
) -> Result<(), ReportRefusal>
    requires fit { FitTogether image.now findings.now }
    requires exact { IfSome exact.now (λ e.
        e ≡ exact_flow_in findings.now.graph findings.now.shares.of) }
    requires times { IfSome exact.now (HasTimes findings.now.graph) }
    ensures { PrintsAll shown (map string_bytes hidden.now) (is_some exact.now)
        (given_sources image.now findings.now) (H.outside host.old) (H.outside host.new) result }
{
    print_shown(alloc, shown, image, findings, hidden, host)?;
    match exact {
        None => Ok(()),
        Some(exact) => print_exact(image, findings, exact, host),
    }
}

/// Prints the reports that are asked for.
fn print_shown<H: Host>(
    alloc: Global,
    shown: Shown,
    image: &Image,
    findings: &Findings,
    hidden: &[String],
    host: &mut H,
) -> Result<(), ReportRefusal>
    requires { FitTogether image.now findings.now }
    ensures { PrintsShown shown (map string_bytes hidden.now)
        (given_sources image.now findings.now) (H.outside host.old) (H.outside host.new) result }
{
    match shown {
        Shown::Flat => print_flat(alloc, image, findings, hidden, host),
        Shown::Graph => print_graph(alloc, image, findings, hidden, host),
        Shown::Both => {
            print_flat(alloc, image, findings, hidden, host)?;
            print_text(b"\n", host)?;
            print_graph(alloc, image, findings, hidden, host)
        }
    }
}

/// Prints the times with nothing rounded, behind an empty line.
fn print_exact<H: Host>(
    image: &Image,
    findings: &Findings,
    exact: &ExactFlow,
    host: &mut H,
) -> Result<(), ReportRefusal>
    requires fit { FitTogether image.now findings.now }
    requires exact { exact.now ≡ exact_flow_in findings.now.graph findings.now.shares.of }
    requires times { HasTimes findings.now.graph exact.now }
    ensures { PrintsExact (given_sources image.now findings.now) (H.outside host.old)
        (H.outside host.new) result }
{
    print_text(b"\n", host)?;
    write_exact(
        image.symbols.as_slice(),
        &findings.graph,
        exact,
        findings.shares.attributed(),
        host,
    )?;
    Ok(())
}

/// Prints the flat profile.
fn print_flat<H: Host>(
    alloc: Global,
    image: &Image,
    findings: &Findings,
    hidden: &[String],
    host: &mut H,
) -> Result<(), ReportRefusal>
    requires { FitTogether image.now findings.now }
    ensures printed { Reports (flat_text (given_sources image.now findings.now)
        (map string_bytes hidden.now)) (H.outside host.old) (H.outside host.new) result }
    ensures idle { result ≡ Err OutOfMemory → host.new ≡ host.old }
{
    flat_report::write(
        alloc,
        image.symbols.as_slice(),
        &findings.graph,
        &findings.flow,
        &findings.shares,
        findings.rate,
        hidden,
        host,
    )
}

/// Prints the call graph.
fn print_graph<H: Host>(
    alloc: Global,
    image: &Image,
    findings: &Findings,
    hidden: &[String],
    host: &mut H,
) -> Result<(), ReportRefusal>
    requires { FitTogether image.now findings.now }
    ensures printed { Reports (graph_text (given_sources image.now findings.now)
        (map string_bytes hidden.now)) (H.outside host.old) (H.outside host.new) result }
    ensures idle { result ≡ Err OutOfMemory → host.new ≡ host.old }
{
    graph_report::write(
        alloc,
        image.symbols.as_slice(),
        &findings.graph,
        &findings.flow,
        &findings.shares,
        findings.rate,
        hidden,
        host,
    )
}

/// Prints a text.
pub fn print_text<H: Host>(text: &[u8], host: &mut H) -> Result<(), ReportRefusal>
    ensures printed { Reports text.now (H.outside host.old) (H.outside host.new) result }
    ensures idle { result ≡ Err OutOfMemory → host.new ≡ host.old }
{
    out_all_of(host, text)?;
    Ok(())
}
