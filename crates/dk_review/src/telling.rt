//! What the commands tell of a configuration.
ghost use Rattle.std.specs.Prelude.{◌≡◌, ◌≤◌, IfOk, Ok, length};
ghost use Rattle.dk_config.specs.declared.TheConstants.{MAX_CONFIG_BYTES};
ghost use Rattle.dk_certify.specs.Verdicts.{verdict_of};
ghost use Rattle.dk_loader.specs.Reading.{reading};
ghost use Rattle.dk_warnings.specs.Found.{warnings};
ghost use Rattle.dk_review.specs.Reviews.{IsCertification, IsCertified, IsTold};

use dk_certify::{Verdict, certify};
use dk_config::{Config, Layout, NoMemory};
use dk_config_report::Page;
use dk_loader::read_config;
use dk_page::{Certification, Told};
use dk_warnings::warnings;
use show_rows::Form;
use std::alloc::Global;

fn count_warnings(alloc: Global, layout: &Layout) -> Result<usize, NoMemory>
    ensures { IfOk result (λ n. n ≡ length (warnings layout.now)) }
{
    Ok(warnings(alloc, layout.config())?.len())
}

pub(crate) fn bytes_of(alloc: Global, page: &Page) -> Result<Vec<u8>, NoMemory>
    ensures { IfOk result (λ v. v.items ≡ page.now) }
{
    Ok(page.as_bytes().to_vec(alloc)?)
}

fn verdict_for(layout: &Layout) -> Verdict
    ensures { result ≡ verdict_of layout.now }
{
    certify(layout.config())
}

fn certified(alloc: Global, layout: &Layout) -> Result<Certification, NoMemory>
    ensures { IfOk result (IsCertified layout.now) }
{
    let when = show_layout::when(alloc, Form::Line, layout)?;
    let table = show_layout::when(alloc, Form::Record, layout)?;
    Ok(Certification::Certified { when, table })
}

fn certification(alloc: Global, layout: &Layout) -> Result<Certification, NoMemory>
    ensures { IfOk result (IsCertification layout.now (verdict_of layout.now)) }
{
    match verdict_for(layout) {
        Verdict::Accepted(_) => certified(alloc, layout),
        Verdict::Fails {
            level,
            needs,
            window,
        } => Ok(Certification::Failing {
            level,
            needs,
            window,
        }),
    }
}

/// What the commands tell of a layout. `Err` is want of memory.
fn told_of_layout(alloc: Global, layout: &Layout) -> Result<Told, NoMemory>
    ensures { IfOk result (IsTold layout.now) }
{
    let certificate = show_layout::certificate(alloc, Form::Line, layout)?;
    let certificate_table = show_layout::certificate(alloc, Form::Record, layout)?;
    let matrix = show_layout::matrix(alloc, layout)?;
    let certification = certification(alloc, layout)?;
    let margins = show_layout::margins(alloc, Form::Line, layout)?;
    let margins_table = show_layout::margins(alloc, Form::Record, layout)?;
    let warnings = show_layout::warnings(alloc, Form::Line, layout)?;
    let count = count_warnings(alloc, layout)?;
    Ok(Told {
        certificate,
        certificate_table,
        matrix,
        certification,
        margins,
        margins_table,
        warnings,
        count,
    })
}

/// The layout of a document that was read as this configuration. It is read once more, since the caller's is changed in
/// place where chains are tried. `Err` is want of memory.
fn layout_of(alloc: Global, config: &Config, bytes: &[u8]) -> Result<Layout, NoMemory>
    requires few { length bytes.now ≤ MAX_CONFIG_BYTES }
    requires read { reading bytes.now ≡ Ok config.now }
    ensures { IfOk result (λ layout. layout ≡ config.now) }
{
    let Ok(again) = read_config(alloc, bytes) else {
        return Err(NoMemory);
    };
    match Layout::of(again) {
        Ok(layout) => Ok(layout),
        Err(_) => Err(NoMemory),
    }
}

/// What the commands tell of the configuration that the document in these bytes was read as. `Err` is want of memory.
pub(crate) fn told_of(alloc: Global, config: &Config, bytes: &[u8]) -> Result<Told, NoMemory>
    requires few { length bytes.now ≤ MAX_CONFIG_BYTES }
    requires read { reading bytes.now ≡ Ok config.now }
    ensures { IfOk result (IsTold config.now) }
{
    let layout = layout_of(alloc, config, bytes)?;
    let told = told_of_layout(alloc, &layout)?;
    Ok(told)
}
