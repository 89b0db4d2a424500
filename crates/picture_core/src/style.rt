//! The style sheet of a picture, for light and dark schemes.

/// The markup before the shapes. The colours of bars are from a palette that red-green blind readers can distinguish,
/// and bars have patterns too. A reader without style sheets for dark schemes shows the light one.
pub(crate) fn style() -> &'static str {
    STYLE
}

const STYLE: &str = "\
<style>
text{font:12px 'DejaVu Sans Mono',Menlo,Consolas,'Liberation Mono',monospace;fill:#1b1b1b}
.h{font-style:italic;fill:#5a5a5a}
.n,.w,.rw,.l{text-anchor:middle}
.w,.n{fill:#3a3a3a}
.rw{fill:#b00020;font-weight:bold}
.l{font-size:11px;font-weight:bold}
.page{fill:#fff}
.stripe{fill:#f3f4f6}
.refused{fill:#b00020;fill-opacity:.09}
.over{fill:#fff;fill-opacity:0}
.over:hover{fill:#888;fill-opacity:.16}
.pa{fill:#fff1d0}.pb{fill:#e69f00}
.ha{fill:#e69f00}.hb{fill:#b33c00}
.sa{fill:#0072b2}
.ca{fill:#e2e2e2}.cb{stroke:#6b6b6b;stroke-width:1.4}
.edge{fill:none;stroke:#2b2b2b;stroke-width:1.2}
.value{fill:none;stroke:#1b1b1b;stroke-width:2}
.gone{fill:none;stroke:#7a7a7a;stroke-width:1.5;stroke-dasharray:2 4}
.lane{stroke:#8a8a8a;stroke-width:1.2}
.link{stroke:#5a5a5a;stroke-width:1}
.watch{stroke:#8a5fb0;stroke-width:1.6;stroke-dasharray:5 3}
.wait{stroke:#b33c00;stroke-width:1.6;stroke-dasharray:5 3}
.client{fill:#cc79a7;fill-opacity:.55}
.sign{fill:#fff;stroke:#1b1b1b;stroke-width:1.4}
.solid{fill:#1b1b1b;stroke:none}
.open{fill:none;stroke:#1b1b1b;stroke-width:2}
.cross{fill:none;stroke:#b00020;stroke-width:2.4}
@media (prefers-color-scheme:dark){
text{fill:#ececec}
.h{fill:#a8a8a8}
.w,.n{fill:#cfcfcf}
.rw{fill:#ff8a94}
.page{fill:#15181c}
.stripe{fill:#1f242a}
.refused{fill:#ff8a94;fill-opacity:.14}
.pa{fill:#4a3600}.pb{fill:#e69f00}
.ha{fill:#e69f00}.hb{fill:#c74a0a}
.sa{fill:#56b4e9}
.ca{fill:#3a3a3a}.cb{stroke:#b8b8b8}
.edge{stroke:#d8d8d8}
.value{stroke:#ececec}
.gone{stroke:#9a9a9a}
.lane{stroke:#8a8a8a}
.link{stroke:#b0b0b0}
.watch{stroke:#c9a6ea}
.wait{stroke:#ff9a5c}
.sign{fill:#15181c;stroke:#ececec}
.solid{fill:#ececec}
.open{stroke:#ececec}
.cross{stroke:#ff8a94}
}
</style>
<defs>
<pattern id=\"pending\" width=\"8\" height=\"8\" patternUnits=\"userSpaceOnUse\" patternTransform=\"rotate(45)\">\
<rect width=\"8\" height=\"8\" class=\"pa\"/><rect width=\"4\" height=\"8\" class=\"pb\"/></pattern>
<pattern id=\"hanging\" width=\"6\" height=\"6\" patternUnits=\"userSpaceOnUse\" patternTransform=\"rotate(45)\">\
<rect width=\"6\" height=\"6\" class=\"ha\"/><rect width=\"4\" height=\"6\" class=\"hb\"/></pattern>
<pattern id=\"cancelled\" width=\"7\" height=\"7\" patternUnits=\"userSpaceOnUse\">\
<rect width=\"7\" height=\"7\" class=\"ca\"/><path class=\"cb\" d=\"M0 0L7 7M7 0L0 7\"/></pattern>
</defs>
";
