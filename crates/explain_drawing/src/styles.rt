//! The parts of a drawing that are the same in each. Sizes in em count letters of the drawing.

/// The classes: colours of the channels, d for ways and c for all else, then boxes, ways, lines, points and texts. And the
/// pattern of zones that nobody holds.
pub(crate) const STYLES: &str = "<style>
.c1{color:#1f77b4}.c2{color:#e07b00}.c3{color:#2ca02c}.c4{color:#9467bd}
.c5{color:#8c564b}.c6{color:#c94fa7}.c7{color:#7f7f00}.c8{color:#17a0b0}
.d1{color:#0a3c61}.d2{color:#7a3d00}.d3{color:#0f5511}.d4{color:#4a2a6e}
.d5{color:#462a25}.d6{color:#6e1f58}.d7{color:#404000}.d8{color:#08505a}
.b{fill:currentColor;fill-opacity:.05;stroke:currentColor;stroke-opacity:.35;stroke-width:.05em}
.p{opacity:.3}
.free{fill:url(#hatch);stroke:#666;stroke-width:.05em}
.red{fill:#d62728;fill-opacity:.25;stroke:#d62728;stroke-width:.15em}
.t{fill:none;stroke:currentColor;stroke-width:.1em;marker-end:url(#arrow)}
.s{fill:currentColor}
.r{stroke-dasharray:.5em .3em}
.axis{stroke:#888;stroke-width:.05em}
.grid{stroke:#e4e4e4;stroke-width:.04em}
.lane{stroke:#888;stroke-width:.05em}
.join{stroke:#2ca02c;stroke-width:.1em}
.span{stroke:#d62728;stroke-width:.4em;stroke-opacity:.5}
.bad{fill:none;stroke:#d62728;stroke-width:.15em}
.act{fill:#333}
.wait{fill:#fff;stroke:#333;stroke-width:.1em}
.go{fill:#fff;stroke:#2ca02c;stroke-width:.15em}
text{font-family:sans-serif;fill:#333}
.mid{text-anchor:middle}
.end{text-anchor:end}
.tick{font-size:.7em}
.title{font-size:1.1em;font-weight:bold}
.note{font-size:.8em}
.zone{font-size:.8em;paint-order:stroke;stroke:#fff;stroke-width:.2em}
.name{text-anchor:middle;fill:currentColor}
.step{font-size:.8em}
text.bad{fill:#b00000;stroke:none}
.named{fill:#b00000;font-weight:bold;paint-order:stroke;stroke:#fff;stroke-width:.15em}
</style>
<defs><pattern id=\"hatch\" patternUnits=\"userSpaceOnUse\" width=\"1em\" height=\"1em\"><line class=\"axis\" x1=\"0\" y1=\"1em\" x2=\"1em\" y2=\"0\"/></pattern>
<marker id=\"arrow\" viewBox=\"0 0 10 10\" refX=\"10\" refY=\"5\" markerWidth=\"4\" markerHeight=\"4\" orient=\"auto\"><path d=\"M 0 1 L 10 5 L 0 9 z\" fill=\"#333\"/></marker></defs>
";

/// What the signs of the drawing are.
pub(crate) const LEGEND: &str = "<line class=\"t\" x1=\"0\" y1=\"0\" x2=\"2em\" y2=\"0\"/>
<text x=\"2.6em\" y=\".35em\">way</text>
<line class=\"t r\" x1=\"6em\" y1=\"0\" x2=\"8em\" y2=\"0\"/>
<text x=\"8.6em\" y=\".35em\">rapid, each axis by itself</text>
<rect class=\"free\" x=\"22em\" y=\"-.5em\" width=\"1.5em\" height=\"1em\"/>
<text x=\"24em\" y=\".35em\">held by nobody</text>
<rect class=\"red\" x=\"33em\" y=\"-.5em\" width=\"1.5em\" height=\"1em\"/>
<text x=\"35em\" y=\".35em\">can meet</text>
<rect class=\"p b c1\" x=\"41em\" y=\"-.5em\" width=\"1.5em\" height=\"1em\"/>
<text x=\"43em\" y=\".35em\">pale: at another time</text>
<circle class=\"act\" cx=\".4em\" cy=\"2em\" r=\".33em\"/>
<text x=\"1.2em\" y=\"2.35em\">SETM, CLEARM, START ..</text>
<circle class=\"wait\" cx=\"17.4em\" cy=\"2em\" r=\".33em\"/>
<text x=\"18.2em\" y=\"2.35em\">waits</text>
<circle class=\"go\" cx=\"22.4em\" cy=\"2em\" r=\".33em\"/>
<text x=\"23.2em\" y=\"2.35em\">goes on</text>
<line class=\"join\" x1=\"28.5em\" y1=\"2em\" x2=\"30em\" y2=\"2em\"/>
<text x=\"30.5em\" y=\"2.35em\">together</text>
<rect class=\"act\" x=\"36em\" y=\"1.67em\" width=\".66em\" height=\".66em\"/>
<text x=\"37.2em\" y=\"2.35em\">end or alarm</text>
<circle class=\"bad\" cx=\"45em\" cy=\"2em\" r=\".5em\"/>
<text x=\"46em\" y=\"2.35em\">at fault</text>
</g>
";
