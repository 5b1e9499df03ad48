//! The style that all pictures share.

ghost use Rattle.std.specs.Prelude.{◌≡◌};
ghost use Rattle.look_drawing.specs.Style as def;

/// The style, in light and dark, the grid and the ground.
pub const STYLE: &str = "\
    <style>\n\
    .sts-run text{fill:#1c2530;font:12px 'DejaVu Sans',Verdana,sans-serif}\n\
    .sts-run .back{fill:#ffffff}\n\
    .sts-run path{fill:none;stroke-width:2}\n\
    .sts-run .ground{fill:url(#sts-grid)}\n\
    .sts-run .grid{stroke:#e1e5ea;stroke-width:1}\n\
    .sts-run .heading{font-weight:bold;font-size:14px}\n\
    .sts-run .number{fill:#4a5563;font-size:10px;text-anchor:middle}\n\
    .sts-run .word{fill:#4a5563;font-size:8px;text-anchor:middle}\n\
    .sts-run .name{font-weight:bold;text-anchor:end}\n\
    .sts-run .code{font:10px 'DejaVu Sans Mono',Menlo,monospace;text-anchor:end}\n\
    .sts-run .value{font:11px 'DejaVu Sans Mono',Menlo,monospace}\n\
    .sts-run .label{fill:#4a5563;font-size:9px}\n\
    .sts-run .key{font-size:11px}\n\
    .sts-run .ready{stroke:#3a5a85;stroke-width:7}\n\
    .sts-run .waits{stroke:#a85400;stroke-dasharray:4 4}\n\
    .sts-run .step{fill:#1c2530;stroke:#ffffff;stroke-width:1}\n\
    .sts-run .fork{stroke:#5f6b7a;stroke-width:1}\n\
    .sts-run .success{stroke:#1a7f37;stroke-width:3}\n\
    .sts-run .failed,.sts-run .fault{stroke:#b42318;stroke-width:3}\n\
    .sts-run .unheard,.sts-run .never-started{stroke:#4a5563}\n\
    .sts-run .interrupted{fill:#6b2fb5}\n\
    .sts-run .bracket,.sts-run .edge,.sts-run .closing{stroke:#5f6b7a}\n\
    .sts-run .closing{stroke-dasharray:2 3}\n\
    .sts-run .cancelled{stroke:#b42318}\n\
    .sts-run .quiet{stroke:#9aa6b3;stroke-width:1}\n\
    .sts-run .idle{stroke:#4a5563;stroke-width:1}\n\
    .sts-run .expired{fill:#a85400}\n\
    .sts-brief .ground{fill:url(#sts-brief-grid)}\n\
    .sts-brief .word{font-size:7px;letter-spacing:-.5px}\n\
    .sts-brief .ready,.sts-brief .bracket{stroke-dasharray:16 8}\n\
    .sts-brief .waits{stroke-dasharray:4 4 4 12}\n\
    .sts-brief .closing{stroke-dasharray:2 3 2 3 2 12}\n\
    .sts-brief .cancelled{transform:translate(-5px)}\n\
    .sts-brief .quiet,.sts-brief .expired{transform:translate(-4px)}\n\
    @media (prefers-color-scheme:dark){\n\
    .sts-run text{fill:#e8edf2}\n\
    .sts-run .back{fill:#14181d}\n\
    .sts-run .grid{stroke:#2a313a}\n\
    .sts-run .number{fill:#b4bec9}\n\
    .sts-run .label,.sts-run .word{fill:#b4bec9}\n\
    .sts-run .ready{stroke:#6d9bd1}\n\
    .sts-run .waits{stroke:#ffb066}\n\
    .sts-run .step{fill:#e8edf2;stroke:#14181d}\n\
    .sts-run .fork{stroke:#9aa6b3}\n\
    .sts-run .success{stroke:#56d364}\n\
    .sts-run .failed,.sts-run .fault{stroke:#ff8a80}\n\
    .sts-run .unheard,.sts-run .never-started{stroke:#b4bec9}\n\
    .sts-run .interrupted{fill:#cda8ff}\n\
    .sts-run .bracket,.sts-run .edge,.sts-run .closing{stroke:#9aa6b3}\n\
    .sts-run .cancelled{stroke:#ff8a80}\n\
    .sts-run .quiet{stroke:#5f6b7a}\n\
    .sts-run .idle{stroke:#b4bec9}\n\
    .sts-run .expired{fill:#ffb066}\n\
    }\n\
    </style>\n\
    <defs><pattern id='sts-grid' patternUnits='userSpaceOnUse' x='208' y='46' width='24'\
    \x20height='52'><path class='grid' d='M.5 0v52M0 26.5h24'/></pattern>\n\
    <pattern id='sts-brief-grid' patternUnits='userSpaceOnUse' x='208' y='46' width='16'\
    \x20height='52'><path class='grid' d='M.5 0v52M0 26.5h16'/></pattern></defs>\n\
    <rect class='back' width='100%' height='100%'/>\n";

/// The style, in light and dark, the grid and the ground.
pub(crate) fn style() -> &'static str
    ensures { result.now ≡ def.style }
{
    STYLE
}
