//! Answers, and their pictures as another program drew them.

/// An answer and its picture.
#[derive(Clone, Copy)]
pub struct Pictured {
    pub name: &'static str,
    pub answer: &'static [u8],
    pub picture: &'static [u8],
}

/// One job on one machine.
pub const ONE: Pictured = Pictured {
    name: "one job on one machine",
    answer: b"answer 1
problem 1||sumC
jobs 1
machines 1
value 4
piece 1 1 0 4
cert pairs
end
",
    picture: b"\
<svg xmlns=\"http://www.w3.org/2000/svg\" role=\"img\" width=\"1200\" height=\"150\" \
viewBox=\"0 0 120000 15000\" font-family=\"sans-serif\">
<defs><pattern id=\"idle\" width=\"500\" height=\"500\" patternUnits=\"userSpaceOnUse\" \
patternTransform=\"rotate(45)\"><rect width=\"500\" height=\"500\" fill=\"#fdfdfd\"/><rect \
width=\"90\" height=\"500\" fill=\"#cccccc\"/></pattern></defs>
<title>1||sumC, value 4</title>
<rect width=\"100%\" height=\"100%\" fill=\"#ffffff\"/>
<text x=\"7000\" y=\"3200\" font-size=\"2000\">1||sumC, value 4</text>
<text x=\"7000\" y=\"5200\" font-size=\"1300\">jobs 1, machines 1, length 4</text>
<g fill=\"url(#idle)\" stroke=\"#bbbbbb\" stroke-width=\"50\">
<rect x=\"7000\" y=\"8900\" width=\"106000\" height=\"3200\"/>
</g>
<g text-anchor=\"end\" font-size=\"1300\">
<text x=\"6200\" y=\"10968\">1</text>
<text x=\"4700\" y=\"7800\" font-size=\"1100\">machine</text>
<text x=\"4700\" y=\"14000\" font-size=\"1100\">time</text>
</g>
<g stroke=\"#bbbbbb\" stroke-width=\"50\">
<line x1=\"7000\" y1=\"8100\" x2=\"7000\" y2=\"12800\"/>
<line x1=\"33500\" y1=\"8100\" x2=\"33500\" y2=\"12800\"/>
<line x1=\"60000\" y1=\"8100\" x2=\"60000\" y2=\"12800\"/>
<line x1=\"86500\" y1=\"8100\" x2=\"86500\" y2=\"12800\"/>
</g>
<g font-size=\"1100\" text-anchor=\"middle\">
<text x=\"7000\" y=\"7800\">0</text>
<text x=\"7000\" y=\"14000\">0</text>
<text x=\"33500\" y=\"7800\">1</text>
<text x=\"33500\" y=\"14000\">1</text>
<text x=\"60000\" y=\"7800\">2</text>
<text x=\"60000\" y=\"14000\">2</text>
<text x=\"86500\" y=\"7800\">3</text>
<text x=\"86500\" y=\"14000\">3</text>
</g>
<g stroke=\"#555555\" stroke-width=\"100\">
<line x1=\"113000\" y1=\"8100\" x2=\"113000\" y2=\"12800\"/>
</g>
<g font-size=\"1100\" font-weight=\"bold\" text-anchor=\"middle\">
<text x=\"113000\" y=\"7800\">4</text>
<text x=\"113000\" y=\"14000\">4</text>
</g>
<g stroke=\"#222222\" stroke-width=\"60\">
<rect x=\"7000\" y=\"8900\" width=\"106000\" height=\"3200\" fill=\"#f2dc7d\"><title>job 1, \
machine 1, 0 to 4</title></rect>
</g>
<g stroke=\"#222222\" stroke-width=\"70\" stroke-dasharray=\"300 200\">
</g>
<g text-anchor=\"middle\" font-size=\"1300\" pointer-events=\"none\">
<text x=\"60000\" y=\"10968\">1</text>
</g>
</svg>
",
};

/// Two machines that wait, and a job that is preempted and resumed.
pub const IDLE: Pictured = Pictured {
    name: "two machines that wait, and a job that is preempted and resumed",
    answer: b"answer 2
problem P2|prmp|Cmax
jobs 12
machines 2
value 5
piece 3 1 3 5
piece 12 1 0 2
piece 12 2 2 3
cert load
end
",
    picture: b"\
<svg xmlns=\"http://www.w3.org/2000/svg\" role=\"img\" width=\"1200\" height=\"190\" \
viewBox=\"0 0 120000 19000\" font-family=\"sans-serif\">
<defs><pattern id=\"idle\" width=\"500\" height=\"500\" patternUnits=\"userSpaceOnUse\" \
patternTransform=\"rotate(45)\"><rect width=\"500\" height=\"500\" fill=\"#fdfdfd\"/><rect \
width=\"90\" height=\"500\" fill=\"#cccccc\"/></pattern></defs>
<title>P2|prmp|Cmax, value 5</title>
<rect width=\"100%\" height=\"100%\" fill=\"#ffffff\"/>
<text x=\"7000\" y=\"3200\" font-size=\"2000\">P2|prmp|Cmax, value 5</text>
<text x=\"7000\" y=\"5200\" font-size=\"1300\">jobs 12, machines 2, length 5</text>
<g fill=\"url(#idle)\" stroke=\"#bbbbbb\" stroke-width=\"50\">
<rect x=\"7000\" y=\"8900\" width=\"106000\" height=\"3200\"/>
<rect x=\"7000\" y=\"12900\" width=\"106000\" height=\"3200\"/>
</g>
<g text-anchor=\"end\" font-size=\"1300\">
<text x=\"6200\" y=\"10968\">1</text>
<text x=\"6200\" y=\"14968\">2</text>
<text x=\"4700\" y=\"7800\" font-size=\"1100\">machine</text>
<text x=\"4700\" y=\"18000\" font-size=\"1100\">time</text>
</g>
<g stroke=\"#bbbbbb\" stroke-width=\"50\">
<line x1=\"7000\" y1=\"8100\" x2=\"7000\" y2=\"16800\"/>
<line x1=\"28200\" y1=\"8100\" x2=\"28200\" y2=\"16800\"/>
<line x1=\"49400\" y1=\"8100\" x2=\"49400\" y2=\"16800\"/>
<line x1=\"70600\" y1=\"8100\" x2=\"70600\" y2=\"16800\"/>
<line x1=\"91800\" y1=\"8100\" x2=\"91800\" y2=\"16800\"/>
</g>
<g font-size=\"1100\" text-anchor=\"middle\">
<text x=\"7000\" y=\"7800\">0</text>
<text x=\"7000\" y=\"18000\">0</text>
<text x=\"28200\" y=\"7800\">1</text>
<text x=\"28200\" y=\"18000\">1</text>
<text x=\"49400\" y=\"7800\">2</text>
<text x=\"49400\" y=\"18000\">2</text>
<text x=\"70600\" y=\"7800\">3</text>
<text x=\"70600\" y=\"18000\">3</text>
<text x=\"91800\" y=\"7800\">4</text>
<text x=\"91800\" y=\"18000\">4</text>
</g>
<g stroke=\"#555555\" stroke-width=\"100\">
<line x1=\"113000\" y1=\"8100\" x2=\"113000\" y2=\"16800\"/>
</g>
<g font-size=\"1100\" font-weight=\"bold\" text-anchor=\"middle\">
<text x=\"113000\" y=\"7800\">5</text>
<text x=\"113000\" y=\"18000\">5</text>
</g>
<g stroke=\"#222222\" stroke-width=\"60\">
<rect x=\"7000\" y=\"8900\" width=\"42400\" height=\"3200\" fill=\"#f2dc7d\"><title>job 12, \
machine 1, 0 to 2</title></rect>
<rect x=\"70600\" y=\"8900\" width=\"42400\" height=\"3200\" fill=\"#cdeac0\"><title>job 3, \
machine 1, 3 to 5</title></rect>
<rect x=\"49400\" y=\"12900\" width=\"21200\" height=\"3200\" fill=\"#f2dc7d\"><title>job 12, \
machine 2, 2 to 3</title></rect>
</g>
<g stroke=\"#222222\" stroke-width=\"70\" stroke-dasharray=\"300 200\">
<line x1=\"49400\" y1=\"11780\" x2=\"49400\" y2=\"15780\"/>
</g>
<g text-anchor=\"middle\" font-size=\"1300\" pointer-events=\"none\">
<text x=\"28200\" y=\"10968\">12</text>
<text x=\"91800\" y=\"10968\">3</text>
<text x=\"60000\" y=\"14968\">12</text>
</g>
</svg>
",
};

/// A job that takes no time, and so no piece.
pub const NONE: Pictured = Pictured {
    name: "a job that takes no time, and so no piece",
    answer: b"answer 1
problem P2||sumC
jobs 1
machines 2
value 0
cert ranks 1
end
",
    picture: b"\
<svg xmlns=\"http://www.w3.org/2000/svg\" role=\"img\" width=\"1200\" height=\"190\" \
viewBox=\"0 0 120000 19000\" font-family=\"sans-serif\">
<defs><pattern id=\"idle\" width=\"500\" height=\"500\" patternUnits=\"userSpaceOnUse\" \
patternTransform=\"rotate(45)\"><rect width=\"500\" height=\"500\" fill=\"#fdfdfd\"/><rect \
width=\"90\" height=\"500\" fill=\"#cccccc\"/></pattern></defs>
<title>P2||sumC, value 0</title>
<rect width=\"100%\" height=\"100%\" fill=\"#ffffff\"/>
<text x=\"7000\" y=\"3200\" font-size=\"2000\">P2||sumC, value 0</text>
<text x=\"7000\" y=\"5200\" font-size=\"1300\">jobs 1, machines 2, length 0</text>
<g fill=\"url(#idle)\" stroke=\"#bbbbbb\" stroke-width=\"50\">
<rect x=\"7000\" y=\"8900\" width=\"50\" height=\"3200\"/>
<rect x=\"7000\" y=\"12900\" width=\"50\" height=\"3200\"/>
</g>
<g text-anchor=\"end\" font-size=\"1300\">
<text x=\"6200\" y=\"10968\">1</text>
<text x=\"6200\" y=\"14968\">2</text>
<text x=\"4700\" y=\"7800\" font-size=\"1100\">machine</text>
<text x=\"4700\" y=\"18000\" font-size=\"1100\">time</text>
</g>
<g stroke=\"#bbbbbb\" stroke-width=\"50\">
</g>
<g font-size=\"1100\" text-anchor=\"middle\">
</g>
<g stroke=\"#555555\" stroke-width=\"100\">
<line x1=\"7000\" y1=\"8100\" x2=\"7000\" y2=\"16800\"/>
</g>
<g font-size=\"1100\" font-weight=\"bold\" text-anchor=\"middle\">
<text x=\"7000\" y=\"7800\">0</text>
<text x=\"7000\" y=\"18000\">0</text>
</g>
<g stroke=\"#222222\" stroke-width=\"60\">
</g>
<g stroke=\"#222222\" stroke-width=\"70\" stroke-dasharray=\"300 200\">
</g>
<g text-anchor=\"middle\" font-size=\"1300\" pointer-events=\"none\">
</g>
</svg>
",
};
