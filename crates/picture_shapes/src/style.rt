//! The style of a picture.

/// How each class looks, by day and by night; and behind it the hatching of what starved, and the page.
#[rattlefmt::skip]
pub(super) const STYLE: &str = "<style>\n\
svg{background:#fff}\n\
.page{fill:#fff}\n\
.c0{color:#1D3882}.c1{color:#D16F05}.c2{color:#089C60}.c3{color:#AD76AB}.c4{color:#7C71FF}.c5{color:#582937}.bad{color:#9E000E}\n\
.lane{fill:#f3f5f8}\n\
.band{fill:#5b6b7d;fill-opacity:.12}\n\
.strip{fill:#e3e8ee;stroke:#9aa4af}\n\
.grid{stroke:#dfe4ea}\n\
.axis{stroke:#9aa4af}\n\
.gate,.side{stroke:#9aa4af;stroke-dasharray:2 3}\n\
.gate{stroke-dasharray:1 3}\n\
.tick{stroke:#57606a;stroke-width:2}\n\
polyline{fill:none;stroke-linejoin:round}\n\
.packet,.drop,.edge{stroke:currentColor;stroke-width:2}\n\
.packet,.drop{stroke-opacity:.75}\n\
.back{stroke:currentColor;stroke-dasharray:2 3}\n\
.dot,.start,.head,.done,.job{fill:currentColor}\n\
.told{fill:#f3f5f8;stroke:currentColor;stroke-width:2}\n\
.done{stroke:#f3f5f8}\n\
.ran{fill:#f3f5f8}\n\
.ask,.answer{stroke:currentColor}\n\
.answer{fill:#fff}\n\
.ask.c0{fill:#dde1ec}.ask.c1{fill:#f9eada}.ask.c2{fill:#daf0e7}.ask.c3{fill:#f3eaf3}.ask.c4{fill:#ebeaff}.ask.c5{fill:#e6dfe1}\n\
.job.bad{fill:url(#h);stroke:currentColor}\n\
.hatch{stroke:#9E000E;stroke-opacity:.35}\n\
text{font:11px monospace;fill:#1b1f24}\n\
.title{font:600 18px sans-serif}\n\
.name{font:600 12px sans-serif}\n\
.sub{font:12px sans-serif}\n\
.key{font:11px sans-serif}\n\
.mute{font:8.5px monospace}\n\
.small,.on{font-size:10px}\n\
.sub,.key,.mute,.small,.clock{fill:#57606a}\n\
.mid{text-anchor:middle}\n\
.id,.up,.on{font-weight:700}\n\
.up{fill:#1b1f24}\n\
.on.c0,.on.c5{fill:#fff}\n\
.reply.bad,.on.bad{fill:#9E000E}\n\
.id,.small,.clock,.mark,.tag,.reply,.on.bad{paint-order:stroke;stroke:#f3f5f8;stroke-width:3px;stroke-linejoin:round}\n\
.tag{stroke:#e3e8ee}\n\
.reply{stroke:#fff}\n\
@media (prefers-color-scheme:dark){\n\
svg{background:#0d1117}\n\
.page{fill:#0d1117}\n\
.c0{color:#6E74FE}.c1{color:#F1D41E}.c2{color:#46EB91}.c3{color:#EC7ED7}.c4{color:#CFFFF5}.c5{color:#8E847B}.bad{color:#F35938}\n\
.lane,.told,.ran{fill:#161b22}\n\
.band{fill:#9fb3c8}\n\
.strip{fill:#262d36;stroke:#5b6570}\n\
.grid{stroke:#2a313a}\n\
.axis,.gate,.side{stroke:#5b6570}\n\
.tick{stroke:#9aa4af}\n\
.done{stroke:#161b22}\n\
.answer{fill:#0d1117}\n\
.ask.c0{fill:#20244a}.ask.c1{fill:#3a3618}.ask.c2{fill:#163b29}.ask.c3{fill:#3a2539}.ask.c4{fill:#32403f}.ask.c5{fill:#292827}\n\
.hatch{stroke:#F35938}\n\
text,.up{fill:#e6edf3}\n\
.sub,.key,.mute,.small,.clock{fill:#9aa4af}\n\
.clock.up{fill:#e6edf3}\n\
.on,.on.c0,.on.c5{fill:#0d1117}\n\
.reply.bad,.on.bad{fill:#F35938}\n\
.id,.small,.clock,.mark,.on.bad{stroke:#161b22}\n\
.tag{stroke:#262d36}\n\
.reply{stroke:#0d1117}\n\
}\n\
</style>\n\
<defs><pattern id=\"h\" width=\"6\" height=\"6\" patternUnits=\"userSpaceOnUse\">\
<path class=\"hatch\" d=\"M-1,1 L1,-1 M0,6 L6,0 M5,7 L7,5\"/></pattern></defs>\n\
<rect class=\"page\" width=\"100%\" height=\"100%\"/>\n\
";
